// Salvaging one file to another.
use files::output::Output;
use files::program::Named;
use files::{Input, Verdict, output, told};
use salvaging::Salvaged;
use std::rt::HostRuntime;

fn trouble(what: &[u8]) -> Verdict {
    told::trouble(b"salvage", what);
    Verdict::Trouble
}

// What went wrong is told, and what stood under OUT's name stays.
fn given_up(output: Output, what: &[u8]) -> Verdict {
    let verdict = trouble(what);
    output.abandon();
    verdict
}

// The output of a salvage gets its name, or what went wrong is told. It differs where bytes were skipped.
fn end(salvaged: Salvaged, output: Output, from: &[u8], to: &[u8]) -> Verdict {
    if salvaged.input.failed {
        return given_up(output, from);
    }
    if salvaged.out.failed {
        return given_up(output, to);
    }
    if salvaged.lines.failed {
        return given_up(output, b"standard output");
    }
    if !output.finish(salvaged.out) {
        return trouble(to);
    }
    if salvaged.lines.count == 0 {
        Verdict::Well
    } else {
        Verdict::Differs
    }
}

fn salvage(rt: HostRuntime, input: &Input, to: &[u8], progress: bool) -> Verdict {
    let mut room = io::buffer();
    if output::is_input(rt, input.stream, to) {
        told::say(b"salvage: OUT is the file that IN is: ");
        told::say(to);
        told::say(b"\n");
        return Verdict::Trouble;
    }
    let output = output::begin(rt, to, &mut room);
    if output.stream.failed {
        return trouble(to);
    }
    let salvaged = salvaging::salvage_all(
        input.stream,
        &input.source,
        progress::begin(progress, &input.source),
        output.stream,
        streams::standard_output(),
    );
    end(salvaged, output, input.name, to)
}

// The file that an argument names, from an input.
fn salvage_to(rt: HostRuntime, input: &Input, second: usize, progress: bool) -> Verdict {
    let mut name = io::buffer();
    match files::argument(rt, second, &mut name) {
        Some(n) => salvage(rt, input, &name[..n], progress),
        None => trouble(b""),
    }
}

// Salvages what the first name is to what the second is, and answers the verdict.
pub fn run(rt: HostRuntime, named: Named) -> Verdict {
    let mut room = io::buffer();
    let input = files::open(rt, named.first, &mut room);
    if input.stream.failed {
        return trouble(input.name);
    }
    let verdict = salvage_to(rt, &input, named.second.unwrap_or(0), named.progress);
    files::close(input.source);
    verdict
}
