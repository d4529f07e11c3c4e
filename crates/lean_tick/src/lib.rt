// The reading of a curve at a tick for C and Rust, its number, place and reading in a lent array of signed words.
#![tactic(auto)]

ghost use Rattle.lean_tick.specs.Ticked.{Ticked};

use tick::Moment;

// Reads the curve of a net of points at k/1024 and writes the number, the place and the reading of the answer to the first
// three of `words`: 0. Where `words` has fewer than three places nothing is written: 1.
// kept: the C interface has a number for the code
#[unsafe(no_mangle)]
pub extern "C" fn lean_tick(points: &[i32], k: u32, words: &mut [i64]) -> u32
    ensures { Ticked points.now k words.old result words.new }
{
    if words.len() < 3 {
        return 1;
    }
    let told = tick::read(points, Moment(k));
    words[0] = i64::from(told.number);
    words[1] = told.place as i64;
    words[2] = told.reading;
    0
}
