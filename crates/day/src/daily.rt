// The daily sheet of a trace that is fed as it comes (rule Daily sheet; 02, ticket 12): a state by value that takes the trace in
// parts, cut anywhere, some without a byte. How a trace is cut and read is crates pairs' and feed's, what a reply adds is crate
// sheets'. No function that is public asks anything of its caller.
ghost use Rattle.std.specs.Prelude.{◌≡◌};
ghost use Rattle.pairs.specs.Cut.{longest_record};
ghost use Rattle.day.specs.sheets.Sheet.{no_span, sheet_in};
ghost use Rattle.day.specs.daily.Read.{blank_state, after_part};

use crate::sheets::{Sheet, Span, with_pair};

// The bytes of the pair that is not whole yet, with zeros behind them; how many bytes there are from its start on; and the sheet of
// the pairs before it.
#[derive(Clone, Copy)]
pub struct State {
    pub held: [u8; 256],
    pub rest: u64,
    pub sheet: Sheet,
}

// The span of no points.
fn no_span() -> Span
    ensures { result ≡ no_span }
{
    Span {
        some: false,
        least: 0,
        most: 0,
    }
}

// A state that has taken nothing.
pub fn new() -> State
    ensures { result ≡ blank_state }
{
    State {
        held: [0u8; 256],
        rest: 0,
        sheet: Sheet {
            odd: 0,
            refusals: [0u64; 11],
            span: no_span(),
        },
    }
}

// The next part, of any length.
// kept: its type is C's state of the sheet (`lean_sheet`), and the replay's is another; what both do is `feed::take`
pub fn take(state: State, part: &[u8]) -> State
    ensures { result ≡ after_part state part.now }
{
    let mut held = state.held;
    let (rest, sheet) = feed::take(&mut held, state.rest, state.sheet, part, with_pair);
    State { held, rest, sheet }
}

// The sheet of a trace that is there as a whole.
pub fn sheet_of(bytes: &[u8]) -> Sheet
    ensures { result ≡ sheet_in longest_record bytes.now }
{
    take(new(), bytes).sheet
}
