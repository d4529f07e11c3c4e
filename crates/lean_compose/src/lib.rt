// The composer for C and Rust: 01's entry (rule Forms and degrees) with its answer in a lent array of four words. Each slice
// crosses as a pointer and a length in elements.
#![tactic(auto)]

ghost use Rattle.compose.specs.Afterwards.{arrays};
ghost use Rattle.lean_compose.specs.Exported.{request_of, Exported};

use crossing::{put, put_answer};
use request::Head;
use request::units::Age;

// Composes a surface and a path, on a tilt sample of the given age in milliseconds, and writes the number, the place and
// the count of the answer and the entries that were formed to the first four of `words`: 0. Where `words` has fewer than four
// places nothing at all is written: 1.
// kept: the C interface has a number for the code
#[unsafe(no_mangle)]
pub extern "C" fn lean_compose(
    form: u32,
    first: u32,
    second: u32,
    N: u32,
    age: u16,
    surface: &[i32],
    path: &[i32],
    high: &mut [i64],
    low: &mut [u64],
    points: &mut [i32],
    words: &mut [u64],
) -> u32
    ensures { Exported (request_of form first second N surface.now path.now) age
        (arrays high.old low.old points.old) words.old result
        (arrays high.new low.new points.new) words.new }
{
    if words.len() < 4 {
        return 1;
    }
    let composed = compose::compose(
        Head {
            form,
            first,
            second,
            N,
        },
        Age(age),
        surface,
        path,
        high,
        low,
        points,
    );
    put_answer(words, composed.answer);
    put(words, 3, composed.entries);
    0
}
