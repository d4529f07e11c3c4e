// The daily sheet: reads the trace that its argument names, or standard input, and writes the fourteen lines. What goes wrong is said on
// standard error, and then no line is written.
#![tactic(auto)]

use files::program::{Named, names};
use files::told::{say, trouble, written};
use files::{Input, Verdict, told};
use std::rt::HostRuntime;

// kept: like replay's `no_numbers`; one function for both would still be given the words here, where both callers have them.
fn no_sheet(name: &[u8]) -> Verdict {
    trouble(b"sheet", name);
    say(b"sheet: the trace was not read to its end, so there is no sheet\n");
    Verdict::Trouble
}

// Writes the sheet of what comes from an input.
fn sheet_from(input: &Input, progress: bool) -> Verdict {
    let told = day::sheet_all(
        input.stream,
        &input.source,
        progress,
        streams::standard_output(),
    );
    if told.input.failed {
        return no_sheet(input.name);
    }
    written(b"sheet", told.out, Verdict::Well)
}

// Writes the sheet of the trace that the first name is, or of standard input where there is none.
fn run(rt: HostRuntime, named: Named) -> Verdict {
    let mut room = io::buffer();
    let input = files::open(rt, named.first, &mut room);
    if input.stream.failed {
        return no_sheet(input.name);
    }
    let verdict = sheet_from(&input, named.progress);
    files::close(input.source);
    verdict
}

fn main(rt: HostRuntime) {
    let named = names(
        rt,
        b"sheet",
        b"usage: sheet [--progress] [FILE]\n\
        Reads a recorded trace, FILE or standard input, and writes the sheet of its replies:\n\
        \x20 odd n        replies of another kind, with a number above 10, of a length other than\n\
        \x20              8 + 2 times their count, or refused with a count\n\
        \x20 refusal k n  of the others, how many have number k: 0 for accepted, to 10\n\
        \x20 least v      the least of the accepted points, or none\n\
        \x20 most v       the greatest, or none\n\
        Reading ends as in replay: at a length that no record has, or a pair that is cut off.\n\
        A trace that cannot be read to its end gives a message on standard error and no line.\n\
        --progress  tells on standard error how far the reading is\n\
        --help      writes this text\n\
        --version   writes the version\n\
        Exit status: 0 the sheet is written, 2 trouble.\n",
        0,
        1,
    );
    if let Some(named) = named {
        told::verdict(run(rt, named));
    }
}
