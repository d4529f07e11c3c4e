// What lies ahead in a window of a torn trace, for C and Rust, its numbers in a lent array of words.
#![tactic(auto)]

ghost use Rattle.std.specs.Prelude.{◌≡◌};
ghost use Rattle.lean_salvage.specs.Salvaged.{with_stretch, Salvaged};

use crossing::put;
use salvaging::saver::{Place, Stretch};

// Writes the five numbers of what lies ahead, each where it has a place.
fn put_stretch(words: &mut [u64], next: Stretch)
    ensures { words.new ≡ with_stretch next words.old }
{
    put(words, 0, next.place.from);
    put(words, 1, next.place.lost);
    put(words, 2, next.skipped as u64);
    put(words, 3, next.kept as u64);
    put(words, 4, next.line as u64);
}

// Looks ahead in a window, behind which no more bytes come where `last` is not 0. The first two of `words` are the place: the offset from
// which on bytes were skipped, and how many. Writes the place behind what lies ahead, how many bytes are skipped, how many behind them
// are kept, and how many bytes of `line` the line of a run is that is over: 0. Where `words` has fewer than five places or `line` fewer
// than 47 nothing is written: 1.
// kept: the C interface: lent words, a number for a truth and one for a refusal (include/lean.h)
#[unsafe(no_mangle)]
pub extern "C" fn lean_salvage(window: &[u8], last: u32, words: &mut [u64], line: &mut [u8]) -> u32
    ensures { Salvaged window.now last words.old line.old result words.new line.new }
{
    if words.len() < 5 {
        return 1;
    }
    if line.len() < 47 {
        return 1;
    }
    let place = Place {
        from: words[0],
        lost: words[1],
    };
    put_stretch(
        words,
        salvaging::saver::ahead(window, last != 0, place, line),
    );
    0
}
