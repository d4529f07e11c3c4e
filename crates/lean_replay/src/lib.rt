// The replay of a whole trace for C and Rust, its five numbers in a lent array of words.
#![tactic(auto)]

ghost use Rattle.lean_replay.specs.Replayed.{Replayed};

use crossing::put;

// Replays a trace and writes calls, same, differ, first and rest to the first five of `words`: 0. Where `words` has fewer
// than five places nothing is written: 1.
// kept: the C interface: lent words and a number for a refusal (include/lean.h)
#[unsafe(no_mangle)]
pub extern "C" fn lean_replay(bytes: &[u8], words: &mut [u64]) -> u32
    ensures { Replayed bytes.now words.old result words.new }
{
    if words.len() < 5 {
        return 1;
    }
    let five = door::tally::replay(bytes);
    put(words, 0, five.calls);
    put(words, 1, five.same);
    put(words, 2, five.differ);
    put(words, 3, five.first);
    put(words, 4, five.rest);
    0
}
