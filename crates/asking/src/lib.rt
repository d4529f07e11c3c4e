// Answering an input: parts of it are read, and what `answers` says to a line is written out where the line ends. What a file
// holds is not known here; it is promised that what was written is what is told of what was read.
#![tactic(auto)]

mod answers;
mod patch_line;
mod reply;
mod tick_line;

ghost use Rattle.std.specs.Prelude.{◌≡◌, ◌+◌, ◌≤◌, length, take};
ghost use Rattle.streams.specs.Stream.{Wrote};
ghost use Rattle.asking.specs.Told.{shown_by, telling};
ghost use Rattle.asking.specs.Asked.{Puts, Carries, Read, Answered};

use crate::answers::{Lines, Taken};
use streams::{Source, Stream};

// Where the answering stands: how much of a line is kept, the outputs, and whether a line could not be read.
#[derive(Clone, Copy)]
struct State {
    lines: Lines,
    out: Stream,
    err: Stream,
    // kept: the lines and the outputs stand either way
    wrong: bool,
}

// The input and the state behind what was read of it.
#[derive(Clone, Copy)]
struct Turn {
    input: Stream,
    state: State,
}

// How lines are told of: by the name of their input, and with refusals by name where that is wished.
#[derive(Clone, Copy)]
struct How<'a> {
    name: &'a [u8],
    // kept: a wish beside the name, which is there either way
    by_names: bool,
}

// The streams behind an input that was answered, whether a line was unreadable, and whether the input was read to its end.
#[derive(Clone, Copy)]
pub struct Asked {
    pub input: Stream,
    pub out: Stream,
    pub err: Stream,
    // kept: two truths of one input, and the streams stand either way
    pub unreadable: bool,
    // kept: as unreadable
    pub ended: bool,
}

// Writes an answer line, with its refusal by name where that is wished.
// kept: a wish of the caller's, asked here alone, and `shown_by` says both
fn answered(to: Stream, by_names: bool, line: &[u8], spare: &mut [u8]) -> Stream
    requires { length line.now + 9 ≤ length spare.old }
    ensures { Wrote to (shown_by by_names line.now) result }
{
    if by_names {
        let n = names::write_by_name(line, spare);
        return streams::write(to, &spare[..n]);
    }
    streams::write(to, line)
}

// What is told of a line, after the input's name, goes to standard error, and then the answer to standard output.
// kept: the state goes on from line to line, and how stays
fn put(how: How, out: &[u8], err: &[u8], spare: &mut [u8], taken: Taken, state: State) -> State
    requires { (taken.answer ≤ length out.now) × (taken.complaint ≤ length err.now) × (length out.now + 9 ≤ length spare.old) }
    ensures { Puts (telling how.entry.name.now how.entry.by_names) out.now err.now taken state result }
{
    let answer = &out[..taken.answer];
    let complaint = &err[..taken.complaint];
    let lines = taken.lines;
    if complaint.is_empty() {
        return State {
            lines,
            out: answered(state.out, how.by_names, answer, spare),
            ..state
        };
    }
    let named = streams::write(state.err, how.name);
    State {
        lines,
        err: streams::write(named, complaint),
        out: answered(state.out, how.by_names, answer, spare),
        wrong: true,
    }
}

// The lines that end in a part, by way of buffers for an answer, for what is told of a line, and for an answer with its refusal by name.
fn take_lines(
    part: &[u8],
    how: How,
    line: &mut [u8],
    out: &mut [u8],
    err: &mut [u8],
    spare: &mut [u8],
    state: State,
) -> State
    requires { (8192 ≤ length out.old) × (8192 ≤ length err.old) × (length out.old + 9 ≤ length spare.old) }
    ensures { Carries (telling how.entry.name.now how.entry.by_names) part.now line.old state line.new result }
{
    let mut told = state;
    let mut at = 0;
    // kept: where the next line begins is what `take` says, so nothing counts by one
    while at < part.len() {
        let taken = crate::answers::take(part, at, told.lines, line, out, err);
        told = put(how, out, err, spare, taken, told);
        at = taken.at;
    }
    told
}

// The lines that end in a part.
fn take_part(part: &[u8], how: How, line: &mut [u8], state: State) -> State
    ensures { Carries (telling how.entry.name.now how.entry.by_names) part.now line.old state line.new result }
{
    let mut answer = [0u8; 8192];
    let mut complaint = [0u8; 8192];
    let mut spare = [0u8; 8201];
    take_lines(
        part,
        how,
        line,
        &mut answer,
        &mut complaint,
        &mut spare,
        state,
    )
}

// Reads until nothing more comes, or an answer cannot be written. Nothing says that an input ends, and a proved loop has to: it
// has more turns than a run uses up.
fn read_all(
    input: Stream,
    source: &Source,
    how: How,
    part: &mut [u8],
    line: &mut [u8],
    state: State,
) -> Turn
    ensures { Read (telling how.entry.name.now how.entry.by_names) line.old input state line.new result.input result.state }
{
    let mut turn = Turn { input, state };
    for _ in 0..u64::MAX {
        let got = streams::read(turn.input, source, part);
        turn = Turn {
            input: got.stream,
            state: take_part(&part[..got.count], how, line, turn.state),
        };
        // kept: a read of no bytes is the input's end, as the system tells it
        if got.count == 0 || turn.state.out.failed {
            return turn;
        }
    }
    turn
}

// Answers an input that has a name, whose last line may have no newline. A line that a failed read has begun is not answered.
// kept: by_names is a wish of the command line, and `Answered` says both
pub fn answer_all(
    input: Stream,
    source: &Source,
    name: &[u8],
    by_names: bool,
    out: Stream,
    err: Stream,
) -> Asked
    ensures { Answered (telling name.now by_names) input out err result }
{
    let mut part = io::large_buffer();
    let mut line = [0u8; 4097];
    let how = How { name, by_names };
    let state = State {
        lines: Lines { kept: 0, row: 1 },
        out,
        err,
        wrong: false,
    };
    let turn = read_all(input, source, how, &mut part, &mut line, state);
    let ended = !(turn.input.failed || turn.state.out.failed);
    let told = if ended {
        take_part(b"\n", how, &mut line, turn.state)
    } else {
        turn.state
    };
    Asked {
        input: turn.input,
        out: told.out,
        err: told.err,
        unreadable: told.wrong,
        ended,
    }
}
