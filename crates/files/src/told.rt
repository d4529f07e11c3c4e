// What a program tells people: messages on standard error, a text on standard output, the version, and the verdict.
use crate::{Verdict, argument};
use std::fmt::InlineText;
use std::rt::HostRuntime;
use std_io::io::last_error;
use streams::{Stream, standard_output, write};

// The descriptor that `run` opens for the verdict, and leaves with what is told there. Where it is not open nothing happens.
const VERDICT: i32 = 198;

const STDERR_FILENO: i32 = 2;

// Tells the verdict, which may be given by its number.
pub fn verdict(status: impl Into<Verdict>) {
    let digit = match status.into() {
        Verdict::Well => b'0',
        Verdict::Differs => b'1',
        Verdict::Trouble => b'2',
    };
    io::write_all(VERDICT, &[digit]);
}

pub fn say(words: &[u8]) {
    io::write_all(STDERR_FILENO, words);
}

// One piece after the other.
fn say_all(pieces: &[&[u8]]) {
    for piece in pieces {
        say(piece);
    }
}

// What the system says of an error, without its number, which the kit puts behind it.
fn reason(text: &str) -> &str {
    text.split_once(" (os error ")
        .map_or(text, |(words, _)| words)
}

// `PROGRAM: WHAT: ` and why the last call failed.
pub fn trouble(program: &[u8], what: &[u8]) {
    let why: InlineText<128> = InlineText::of(last_error());
    say_all(&[
        program,
        b": ",
        what,
        b": ",
        reason(why.as_str()).as_bytes(),
        b"\n",
    ]);
}

// `PROGRAM: WHAT ARGUMENT`, of an argument that cannot be done.
pub fn complain(rt: HostRuntime, program: &[u8], what: &[u8], i: usize) {
    let mut word = io::buffer();
    let n = argument(rt, i, &mut word).unwrap_or(0);
    say_all(&[program, b": ", what, b" ", &word[..n], b"\n"]);
    point(program);
}

// Where to find what there is.
pub fn point(program: &[u8]) {
    say_all(&[program, b" --help tells what there is\n"]);
}

// The verdict on an output: trouble and a message where a write failed.
pub fn written(program: &[u8], out: Stream, status: impl Into<Verdict>) -> Verdict {
    let verdict = status.into();
    if out.failed {
        trouble(program, b"standard output");
        return Verdict::Trouble;
    }
    verdict
}

// A text on standard output.
pub fn text(program: &[u8], words: &[u8]) -> Verdict {
    written(program, write(standard_output(), words), Verdict::Well)
}

// The version of all that is in this repository.
pub fn version(program: &[u8]) -> Verdict {
    text(program, b"Rasagulbe 0.5.0\n")
}
