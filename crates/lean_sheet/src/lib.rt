// The daily sheet for C and Rust, fed as it comes: the state crosses in four lent arrays of a size of their own, since a struct does
// not cross alike on every machine. Zeros in all of them are the state that has taken nothing.
#![tactic(auto)]

ghost use Rattle.std.specs.Prelude.{◌≡◌};
ghost use Rattle.lean_sheet.specs.Fed.{span_in, state_in, counts_of, span_of, Fed};

use day::daily::State;
use day::sheets::{Sheet, Span};

fn span_in(counts: &[u64; 3], span: &[i64; 2]) -> Span
    ensures { result ≡ span_in counts.now span.now }
{
    Span {
        some: counts[2] != 0,
        least: span[0],
        most: span[1],
    }
}

fn state_in(held: &[u8; 256], counts: &[u64; 3], refusals: &[u64; 11], span: &[i64; 2]) -> State
    ensures { result ≡ state_in held.now counts.now refusals.now span.now }
{
    State {
        held: *held,
        rest: counts[0],
        sheet: Sheet {
            odd: counts[1],
            refusals: *refusals,
            span: span_in(counts, span),
        },
    }
}

// kept: the C interface: a truth crosses as a number, in a lent array of words
fn put_counts(counts: &mut [u64; 3], rest: u64, odd: u64, some: bool)
    ensures { counts.new ≡ counts_of rest odd some }
{
    *counts = [rest, odd, u64::from(some)];
}

fn put_span(lent: &mut [i64; 2], span: Span)
    ensures { lent.new ≡ span_of span }
{
    *lent = [span.least, span.most];
}

// Takes the next part of a trace, of any length. The state is in `held`, the bytes of the pair that is not whole yet; in `counts`:
// how many bytes there are from its start on, how many replies were odd, and 1 where there was a point; in `refusals`, how many of
// the others have each number 0 to 10; and in `span`, the least and the most point.
#[unsafe(no_mangle)]
pub extern "C" fn lean_sheet(
    held: &mut [u8; 256],
    counts: &mut [u64; 3],
    refusals: &mut [u64; 11],
    span: &mut [i64; 2],
    part: &[u8],
)
    ensures { Fed held.old counts.old refusals.old span.old part.now
        held.new counts.new refusals.new span.new }
{
    let state = day::daily::take(state_in(held, counts, refusals, span), part);
    let sheet = state.sheet;
    let bytes = state.held;
    let numbers = sheet.refusals;
    *held = bytes;
    *refusals = numbers;
    put_counts(counts, state.rest, sheet.odd, sheet.span.some);
    put_span(span, sheet.span);
}
