// The inputs that the arguments name, one after the other.
use crate::wish::Wanted;
use args::Kind;
use files::Verdict;
use files::program::kind_at;
use files::told::{trouble, written};
use std::rt::HostRuntime;
use streams::Stream;

// The two outputs, the verdict so far, and whether `--` has come.
#[derive(Clone, Copy)]
struct Sofar {
    out: Stream,
    err: Stream,
    verdict: Verdict,
    rest: bool,
}

// The input that an argument names, or standard input where there is none.
fn answer(rt: HostRuntime, file: Option<usize>, by_names: bool, sofar: Sofar) -> Sofar {
    let mut room = io::buffer();
    let input = files::open(rt, file, &mut room);
    if input.stream.failed {
        trouble(b"ask", input.name);
        return Sofar {
            verdict: Verdict::Trouble,
            ..sofar
        };
    }
    let asked = asking::answer_all(
        input.stream,
        &input.source,
        input.name,
        by_names,
        sofar.out,
        sofar.err,
    );
    let mut next = Sofar {
        out: asked.out,
        err: asked.err,
        ..sofar
    };
    if asked.out.failed {
        next.verdict = written(b"ask", asked.out, Verdict::Trouble);
        return next;
    }
    if asked.input.failed {
        trouble(b"ask", input.name);
        next.verdict = Verdict::Trouble;
    }
    files::close(input.source);
    if asked.unreadable {
        next.verdict = next.verdict.max(Verdict::Differs);
    }
    next
}

// Each input, until an answer cannot be written; the verdict on all of them.
fn answer_each(rt: HostRuntime, by_names: bool, begun: Sofar) -> Verdict {
    let mut sofar = begun;
    for i in 1..files::argument_count(rt) {
        match kind_at(rt, i, sofar.rest) {
            Kind::Rest => sofar.rest = true,
            Kind::Name => sofar = answer(rt, Some(i), by_names, sofar),
            _ => {}
        }
        if sofar.out.failed {
            break;
        }
    }
    sofar.verdict
}

// All that the arguments ask for.
pub fn answer_all(rt: HostRuntime, wanted: Wanted) -> Verdict {
    let begun = Sofar {
        out: streams::standard_output(),
        err: streams::standard_error(),
        verdict: Verdict::Well,
        rest: false,
    };
    if wanted.named {
        answer_each(rt, wanted.by_names, begun)
    } else {
        answer(rt, None, wanted.by_names, begun).verdict
    }
}
