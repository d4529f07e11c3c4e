// Patches for C and Rust: the entry of `patch` with its answer in a lent array of three words. Each slice crosses as a pointer and a
// length in elements.
#![tactic(auto)]

ghost use Rattle.patch_net.specs.Patch.{patch_of};
ghost use Rattle.lean_patch.specs.Crossing.{Crosses};

use crossing::put_answer;

// Composes a triangular surface of degree n with a triangular domain of degree N, and writes the number, the place and the count of
// the answer to the first three of `words`: 0. Where `words` has fewer than three places nothing at all is written: 1.
// kept: the C interface has a number for the code
#[unsafe(no_mangle)]
pub extern "C" fn lean_patch(
    n: u32,
    N: u32,
    surface: &[i32],
    path: &[i32],
    exact: &mut [i64],
    points: &mut [i32],
    words: &mut [u64],
) -> u32
    ensures { Crosses (patch_of n N surface.now path.now)
        exact.old points.old words.old result exact.new points.new words.new }
{
    if words.len() < 3 {
        return 1;
    }
    let answer = patch::patch(n, N, surface, path, exact, points);
    put_answer(words, answer);
    0
}
