// From a ride's sums to its three output arrays: at each place the numerator as a high and a low word, and the rounded point.
ghost use Rattle.std.specs.Prelude.{◌≡◌, ◌*◌, ◌-◌, ◌^◌, ◌<◌, length, set};
ghost use Rattle.whole.specs.Choose.{choose};
ghost use Rattle.whole.specs.Round.{nearest};
ghost use Rattle.two_words.specs.Words.{two_words};
ghost use Rattle.compose.specs.writing.Arrays.{arrays};
ghost use Rattle.compose.specs.writing.Placed.{PointAt, PointsAt, Enough, Put, Wrote};

use request::units::Travel;
use two_words::Words;

// The rounded point at R of a curve of degree L whose numerator there, n, is over binomial(L, R)·1024^r.
fn rounded(n: Words, L: usize, r: usize, R: usize) -> Travel
    requires { PointAt (two_words n.high.0 n.low) L r R }
    ensures { result.0 ≡ nearest (two_words n.high.0 n.low) (choose L R * 1024 ^ r) }
{
    let d = pascal::binomial(L, R);
    request::units::travel_of(two_words::rounded(n, d, r))
}

// Writes what stands at R: both words of its numerator, and its rounded point.
fn write_place(
    sums: &[i64],
    count: usize,
    r: usize,
    R: usize,
    high: &mut [i64],
    low: &mut [u64],
    points: &mut [i32],
)
    requires { PointsAt sums.now count r × (R < count) × Enough (arrays high.old low.old points.old) count }
    ensures { Put sums.now (count - 1) r R
        (arrays high.old low.old points.old)
        (arrays high.new low.new points.new) }
{
    let n = two_words::joined(sums, R);
    high[R] = n.high.0;
    low[R] = n.low;
    points[R] = rounded(n, count - 1, r, R).0;
}

// Writes the first `count` places of each array.
pub fn write_all(
    sums: &[i64],
    count: usize,
    r: usize,
    high: &mut [i64],
    low: &mut [u64],
    points: &mut [i32],
)
    requires { PointsAt sums.now count r × Enough (arrays high.old low.old points.old) count }
    ensures { Wrote sums.now (count - 1) r count
        (arrays high.old low.old points.old)
        (arrays high.new low.new points.new) }
{
    for R in 0..count {
        write_place(sums, count, r, R, high, low, points);
    }
}
