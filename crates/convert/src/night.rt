// One night: looked through, converted into a file beside OUT, and that file given its name.
use files::output::Output;
use files::program::Named;
use files::{Input, Verdict, output, told};
use renewal::Outcome;
use std::rt::HostRuntime;
use streams::Stream;

fn trouble(what: &[u8]) -> Verdict {
    told::trouble(b"convert", what);
    Verdict::Trouble
}

fn say(words: &[u8]) -> Verdict {
    told::say(b"convert: ");
    told::say(words);
    Verdict::Trouble
}

// The line that is printed, and the verdict.
fn print(refused: bool, changed: u64, to: Stream, verdict: Verdict) -> Verdict {
    let out = renewal::print(refused, changed, to);
    told::written(b"convert", out, verdict)
}

// Whether a night is another when it is read again.
fn differs(seen: Outcome, again: Outcome) -> bool {
    again.refused || seen.changed != again.changed || seen.input.count != again.input.count
}

// Converts what comes from an input, which was looked through before, into an output of this name.
fn write_output(
    seen: Outcome,
    input: &Input,
    output: Output,
    to: &[u8],
    progress: bool,
) -> Verdict {
    let renewed = renewal::renew(
        input.stream,
        &input.source,
        output.stream,
        progress::begin(progress, &input.source),
    );
    if renewed.input.failed {
        let verdict = trouble(input.name);
        output.abandon();
        return verdict;
    }
    if differs(seen, renewed) {
        output.abandon();
        return say(b"IN is another when it is read again; OUT is as it was\n");
    }
    if !output.finish(renewed.out) {
        return trouble(to);
    }
    print(false, renewed.changed, seen.out, Verdict::Well)
}

// The same, where OUT can be written.
fn write_to(rt: HostRuntime, seen: Outcome, input: &Input, to: &[u8], progress: bool) -> Verdict {
    if output::is_input(rt, input.stream, to) {
        return say(b"OUT is IN itself, which stays as it is\n");
    }
    let mut room = io::buffer();
    let output = output::begin(rt, to, &mut room);
    if output.stream.failed {
        return trouble(to);
    }
    write_output(seen, input, output, to, progress)
}

// Opens IN again.
fn write_again(rt: HostRuntime, seen: Outcome, named: Named) -> Verdict {
    let mut from = io::buffer();
    let mut to = io::buffer();
    let Some(n) = files::argument(rt, named.second.unwrap_or(0), &mut to) else {
        return trouble(b"OUT");
    };
    let input = files::open(rt, named.first, &mut from);
    if input.stream.failed {
        return trouble(input.name);
    }
    let verdict = write_to(rt, seen, &input, &to[..n], named.progress);
    files::close(input.source);
    verdict
}

// Looks through IN, which is the first name; where it can be converted, OUT is written, which is the second.
pub fn convert(rt: HostRuntime, named: Named) -> Verdict {
    let mut room = io::buffer();
    let input = files::open(rt, named.first, &mut room);
    if input.stream.failed {
        return trouble(input.name);
    }
    let seen = renewal::look(
        input.stream,
        &input.source,
        streams::standard_output(),
        progress::begin(named.progress, &input.source),
    );
    if seen.input.failed {
        let verdict = trouble(input.name);
        files::close(input.source);
        return verdict;
    }
    files::close(input.source);
    if seen.refused {
        return print(true, seen.changed, seen.out, Verdict::Differs);
    }
    write_again(rt, seen, named)
}
