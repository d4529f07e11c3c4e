// Rule Patches on patches (02, ticket 8): the public entry. A patch is judged whole before anything is written; an accepted one has
// its exact numerators, one signed number each, and its rounded points written to the two lent arrays in 01's triangular order.
#![tactic(auto)]

mod patch_judge;
mod patch_sums;

ghost use Rattle.std.specs.Prelude.{◌≡◌, ◌^◌, ◌≤◌, ◌<◌, nat_abs, length, set};
ghost use Rattle.two_words.specs.Words.{two_words};
ghost use Rattle.patch_net.specs.Patch.{patch_of};
ghost use Rattle.patch_net.specs.Afterwards.{Patched};
ghost use Rattle.patch.specs.patch_sums.Contract.{index_of};
ghost use Rattle.patch.specs.Writing.{Fitting, Fits, Put, Wrote};

use crate::patch_sums::Place;
use request::Answer;
use two_words::Words;
use whole::Num;

// A number by two words as one signed number.
fn single(n: Words) -> Num
    requires { nat_abs (two_words n.high.0 n.low) < 2 ^ 63 }
    ensures { result.0 ≡ two_words n.high.0 n.low }
{
    let size = two_words::size_of(n);
    if whole::negative(n.high) {
        return whole::minus(size.low);
    }
    whole::plus(size.low)
}

// Writes what stands at place R, that of the index `at`: its numerator, and its rounded point.
// kept: the C interface: two arrays are lent, and the clause of `patch` names each.
fn write_place(sums: &[i64], n: usize, at: Place, R: usize, exact: &mut [i64], points: &mut [i32])
    requires { Fits sums.now n (index_of at) × (R < length exact.old) × (R < length points.old) }
    ensures { Put sums.now n (index_of at) R exact.old points.old exact.new points.new }
{
    let v = two_words::joined(sums, at.key());
    let point = two_words::rounded(v, at.multinomial(), n);
    exact[R] = single(v).0;
    points[R] = request::units::travel_of(point).0;
}

// Writes every place of a patch of degree L, whose outer degree is n.
fn write_all(sums: &[i64], n: usize, L: usize, count: usize, exact: &mut [i64], points: &mut [i32])
    requires { Fitting sums.now n L count × (count ≤ length exact.old) × (count ≤ length points.old) }
    ensures { Wrote sums.now n L count exact.old points.old exact.new points.new }
{
    let mut at = Place { i: 0, j: 0, k: L };
    for R in 0..count {
        write_place(sums, n, at, R, exact, points);
        at = at.next();
    }
}

// Composes a triangular surface of degree n with a triangular domain of degree N. The answer is a number, a place and a count: 0, 0
// and the number of points where the patch is accepted, and then so many places of both arrays are written; else the refusal's number
// and place and count 0, and both arrays are as they were.
pub fn patch(
    n: u32,
    N: u32,
    surface: &[i32],
    path: &[i32],
    exact: &mut [i64],
    points: &mut [i32],
) -> Answer
    ensures { Patched (patch_of n N surface.now path.now)
        exact.old points.old result exact.new points.new }
{
    let answer = crate::patch_judge::judge(n, N, surface, path, exact.len(), points.len());
    if answer.is_refused() {
        return answer;
    }
    let outer = n as usize;
    let domain = N as usize;
    let mut sums = [0i64; 182];
    crate::patch_sums::numerators(outer, domain, surface, path, &mut sums);
    write_all(&sums, outer, outer * domain, answer.count, exact, points);
    answer
}
