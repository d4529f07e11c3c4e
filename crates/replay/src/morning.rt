// The night that is asked for, read and told.
use crate::wish::{Told, Wanted};
use files::told::{say, trouble, written};
use files::{Input, Verdict};
use std::rt::HostRuntime;

// kept: like sheet's `no_sheet`; one function for both would still be given the words here, where both callers have them.
fn no_numbers(name: &[u8]) -> Verdict {
    trouble(b"replay", name);
    say(b"replay: the trace was not read to its end, so there are no numbers\n");
    Verdict::Trouble
}

fn found(differ: u64, rest: u64) -> Verdict {
    if differ == 0 && rest == 0 {
        Verdict::Well
    } else {
        Verdict::Differs
    }
}

// The five lines.
fn count(input: &Input, progress: bool) -> Verdict {
    let far = progress::begin(progress, &input.source);
    let replayed = night::replay_all(input.stream, &input.source, far, streams::standard_output());
    if replayed.input.failed {
        return no_numbers(input.name);
    }
    written(
        b"replay",
        replayed.out,
        found(replayed.five.differ, replayed.five.rest),
    )
}

// This pair in words, or the pairs that differ where none is asked for.
fn tell(input: &Input, pair: Option<u64>) -> Verdict {
    let told = night::listing::list(
        input.stream,
        &input.source,
        pair.unwrap_or(0),
        streams::standard_output(),
    );
    if told.out.failed {
        return written(b"replay", told.out, Verdict::Trouble);
    }
    if told.input.failed {
        trouble(b"replay", input.name);
        say(b"replay: the trace was not read to its end\n");
        return Verdict::Trouble;
    }
    match pair {
        None => found(told.differ, told.rest),
        Some(n) if told.calls < n => {
            say(b"replay: the reading ends before that pair\n");
            Verdict::Trouble
        }
        Some(_) => found(told.differ, 0),
    }
}

// What is wanted of the trace.
pub fn run(rt: HostRuntime, wanted: Wanted) -> Verdict {
    let mut room = io::buffer();
    let input = files::open(rt, wanted.file, &mut room);
    if input.stream.failed {
        return no_numbers(input.name);
    }
    match wanted.told {
        Told::Lines => count(&input, wanted.progress),
        Told::List => tell(&input, None),
        Told::Pair(n) => tell(&input, Some(n)),
    }
}
