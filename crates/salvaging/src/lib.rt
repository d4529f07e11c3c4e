// Salvaging a torn trace from an input to two outputs, the kept pairs and the lines: a window slides over the input, 64 KiB at a time,
// and what lies ahead in it (room saver) is written out as it comes. What a file holds is not known here; it is promised that
// what was written is the salvage of what was read.
#![tactic(auto)]

pub mod saver;

ghost use Rattle.std.specs.Prelude.{◌≡◌, ◌||◌, [], ◌+◌, ◌-◌, ◌≤◌, length, take, drop};
ghost use Rattle.torn.specs.Window.{closed_line};
ghost use Rattle.salvaging.specs.saver.Ahead.{line_room};
ghost use Rattle.salvaging.specs.Salvaging.{Puts, Settles, Rests, Fills, Salvages};

use crate::saver::Place;
use progress::Progress;
use streams::{Source, Stream};

// Where the salvage stands, and its two outputs.
#[derive(Clone, Copy)]
struct State {
    place: Place,
    out: Stream,
    lines: Stream,
}

// The state behind so many bytes of a window.
#[derive(Clone, Copy)]
struct Settled {
    state: State,
    taken: usize,
}

// A kept stretch and a line go out.
fn put(place: Place, line: &[u8], kept: &[u8], state: State) -> State
    ensures { Puts place line.now kept.now state result }
{
    State {
        place,
        out: streams::write(state.out, kept),
        lines: streams::write(state.lines, line),
    }
}

// What lies ahead in a window goes out.
// kept: the contract of `saver::ahead`, here and below: a line has room for its bytes, and `last` is a fact of the window and no step
fn step(window: &[u8], last: bool, line: &mut [u8], state: State) -> Settled
    requires { line_room ≤ length line.old }
    ensures { Settles last window.now state result.taken result.state × (result.taken ≡ 0 → Rests last window.now) }
{
    let next = saver::ahead(window, last, state.place, line);
    let end = next.skipped + next.kept;
    let kept = &window[next.skipped..end];
    Settled {
        state: put(next.place, &line[..next.line], kept, state),
        taken: end,
    }
}

// All that is decided of a window goes out.
fn settle(window: &[u8], last: bool, line: &mut [u8], state: State) -> Settled
    requires { line_room ≤ length line.old }
    ensures { Settles last window.now state result.taken result.state × Rests last (drop result.taken window.now) }
{
    let mut now = state;
    let mut at = 0;
    // kept: a stretch has any number of bytes, so this is no `for`
    while at < window.len() {
        let next = step(&window[at..], last, line, now);
        // kept: the contract of `step`: of no byte more is anything decided
        if next.taken == 0 {
            return Settled {
                state: now,
                taken: at,
            };
        }
        now = next.state;
        at += next.taken;
    }
    Settled {
        state: now,
        taken: at,
    }
}

// The input and the state behind a part, how many bytes came, and how many stand in the buffer that are not decided.
#[derive(Clone, Copy)]
struct Turn {
    input: Stream,
    state: State,
    came: usize,
    count: usize,
}

// One part more, behind the bytes of a buffer that are not decided.
fn read_more(turn: Turn, source: &Source, buffer: &mut [u8], line: &mut [u8]) -> Turn
    requires { (turn.count ≤ length buffer.old) × (line_room ≤ length line.old) }
    ensures { Fills turn.input (take turn.count buffer.old) turn.state result buffer.new }
{
    let count = turn.count;
    let got = streams::read(turn.input, source, &mut buffer[count..]);
    let end = count + got.count;
    let settled = settle(&buffer[..end], false, line, turn.state);
    let at = settled.taken;
    buffer.copy_within(at..end, 0);
    Turn {
        input: got.stream,
        state: settled.state,
        came: got.count,
        count: end - at,
    }
}

// Nothing more came, or a write failed.
fn is_over(turn: Turn) -> bool {
    turn.came == 0 || turn.state.out.failed || turn.state.lines.failed
}

// Reads until nothing more comes or a write fails. Nothing says that an input ends, and a proved loop has to: it has as many turns as no
// run uses up.
fn read_all(
    input: Stream,
    source: &Source,
    buffer: &mut [u8],
    line: &mut [u8],
    state: State,
    progress: Progress,
) -> Turn
    requires { line_room ≤ length line.old }
    ensures { Fills input [] state result buffer.new }
{
    let mut turn = Turn {
        input,
        state,
        came: 0,
        count: 0,
    };
    let mut due = progress;
    for _ in 0..u64::MAX {
        turn = read_more(turn, source, buffer, line);
        if is_over(turn) {
            break;
        }
        due = progress::tell(due, b"salvage: bytes read", turn.input.count);
    }
    turn
}

// The input and the outputs behind a salvage, and whether the input was read to its end and all was written.
#[derive(Clone, Copy)]
pub struct Salvaged {
    pub input: Stream,
    pub out: Stream,
    pub lines: Stream,
    // kept: the contract `Salvages`: it says of the input and both outputs what they are where the salvage did not end too
    pub ended: bool,
}

fn left(input: Stream, state: State, ended: bool) -> Salvaged
    ensures { result ≡ record { input = input; out = state.out; lines = state.lines; ended = ended } }
{
    Salvaged {
        input,
        out: state.out,
        lines: state.lines,
        ended,
    }
}

// A read or a write failed.
fn is_broken(input: Stream, state: State) -> bool
    ensures { result ≡ (input.failed || (state.out.failed || state.lines.failed)) }
{
    input.failed || state.out.failed || state.lines.failed
}

// The line of the last run goes out.
fn finish(state: State, line: &mut [u8]) -> State
    requires { line_room ≤ length line.old }
    ensures { Puts state.place (closed_line state.place.from state.place.lost) [] state result }
{
    let n = saver::close(state.place, line);
    put(state.place, &line[..n], b"", state)
}

// Salvages an input that has been opened: the kept pairs go to `out`, and the lines to `lines`.
pub fn salvage_all(
    input: Stream,
    source: &Source,
    progress: Progress,
    out: Stream,
    lines: Stream,
) -> Salvaged
    ensures { Salvages input out lines result }
{
    let mut buffer = io::large_buffer();
    let mut line = [0u8; 47];
    let begun = State {
        place: Place { from: 0, lost: 0 },
        out,
        lines,
    };
    let turn = read_all(input, source, &mut buffer, &mut line, begun, progress);
    if is_broken(turn.input, turn.state) {
        return left(turn.input, turn.state, false);
    }
    let settled = settle(&buffer[..turn.count], true, &mut line, turn.state);
    left(turn.input, finish(settled.state, &mut line), true)
}
