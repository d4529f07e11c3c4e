// Answers request lines: it reads the inputs that its arguments name, or standard input where there are none, and writes an
// answer line for each request line. What is wrong with a line goes to standard error.
#![tactic(auto)]

mod help;
mod input;
mod wish;

use files::program::read;
use files::{Verdict, told};
use std::rt::HostRuntime;
use wish::Wanted;

// Does what is wished, and answers the verdict.
fn done(rt: HostRuntime) -> Verdict {
    match read(rt, b"ask", help::TEXT, Wanted::default()) {
        Ok(wanted) => input::answer_all(rt, wanted),
        Err(verdict) => verdict,
    }
}

fn main(rt: HostRuntime) {
    told::verdict(done(rt));
}
