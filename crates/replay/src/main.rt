// Replays a recorded night: reads the trace that its argument names, or standard input, asks the door afresh and writes the
// five lines, the pairs that differ, or one pair in words. What goes wrong is said on standard error.
#![tactic(auto)]

mod help;
mod morning;
mod wish;

use files::program::read;
use files::{Verdict, told};
use std::rt::HostRuntime;
use wish::Wanted;

// Does what is wished, and answers the verdict.
fn done(rt: HostRuntime) -> Verdict {
    match read(rt, b"replay", help::TEXT, Wanted::default()) {
        Ok(wanted) if wanted.numberless => {
            told::say(b"replay: --show asks for the number of a pair, from 1 on\n");
            Verdict::Trouble
        }
        Ok(wanted) => morning::run(rt, wanted),
        Err(verdict) => verdict,
    }
}

fn main(rt: HostRuntime) {
    told::verdict(done(rt));
}
