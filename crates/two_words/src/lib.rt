// A whole number by two words, a signed high and an unsigned low one, worth high·2^64 + low: made from the two limbs of a sum,
// and rounded by `whole::nearest`, to which a law brings it (`reduced` in proofs/Dividing.antt).
#![tactic(auto)]

ghost use Rattle.std.specs.Prelude.{◌≡◌, ◌+◌, ◌*◌, ◌/◌, ◌^◌, ◌<◌, ◌≤◌, length, pos, ◌+ℤ◌, slice_index_or, unsigned_abs};
ghost use Rattle.whole.specs.Round.{on_side_of, nearest};
ghost use Rattle.limbs.specs.Limbs.{two_limbs, worth};
ghost use Rattle.two_words.specs.Words.{two_words, high_word, low_word, IsWords, Joinable, Roundable};

use whole::Num;

// What a high limb and a high word are worth.
const BASE: i128 = 1 << 32;

const WORD: i128 = 1 << 64;

// A whole number by two words, worth high·2^64 + low.
#[derive(Clone, Copy)]
pub struct Words {
    pub high: Num,
    pub low: u64,
}

// ---- from two limbs

// What the limbs of place s are worth.
fn worth(sums: &[i64], s: usize) -> i128
    requires { 2 * s + 1 < length sums.now }
    ensures { result ≡ worth sums.now s }
{
    sums[2 * s] as i128 * BASE + sums[2 * s + 1] as i128
}

// The words of a number: the high one is cut off downward.
fn words_of(n: i128) -> Words
    ensures { (result.high.0 ≡ high_word n) × (result.low ≡ low_word n) }
{
    Words {
        high: Num((n >> 64) as i64),
        low: (n.cast_unsigned() % (1 << 64)) as u64,
    }
}

// The words of place s.
pub fn joined(sums: &[i64], s: usize) -> Words
    requires { Joinable sums.now s }
    ensures { (result.high.0 ≡ high_word (worth sums.now s)) × (result.low ≡ low_word (worth sums.now s)) }
{
    words_of(worth(sums, s))
}

// ---- the rounding

// A size by two words.
#[derive(Clone, Copy)]
pub struct Size {
    pub high: u64,
    pub low: u64,
}

// What two words are worth.
fn words_worth(n: Words) -> i128
    ensures { (result ≡ two_words n.high.0 n.low) × (n.low < 2 ^ 64) }
{
    n.high.0 as i128 * WORD + n.low as i128
}

// The size of a whole number by two words.
pub fn size_of(n: Words) -> Size
    ensures { (2 ^ 64 * result.high + result.low ≡ unsigned_abs (two_words n.high.0 n.low)) × (result.low < 2 ^ 64) × (n.low < 2 ^ 64) }
{
    let size = words_worth(n).unsigned_abs();
    Size {
        high: (size >> 64) as u64,
        low: (size % (1 << 64)) as u64,
    }
}

// Twice a size over 1024^r, cut off.
fn doubled(size: u128, r: usize) -> u64
    requires { (r ≤ 4) × (size < 2 ^ 34 * 1024 ^ r) }
    ensures { (result ≡ 2 * size / 1024 ^ r) × (result < 2 ^ 35) }
{
    ((2 * size) >> (10 * r)) as u64
}

// The number of size x on n's side of zero.
fn on_side(n: Num, x: u64) -> Num
    requires { x < 2 ^ 63 }
    ensures { result.0 ≡ on_side_of n.0 x }
{
    if whole::negative(n) {
        whole::minus(x)
    } else {
        whole::plus(x)
    }
}

// The rounded point of n/(d·1024^r): the powers of 1024 are shifted away first, so that what is divided fits 64 bits. The size
// is rounded and the sign put back after it, since a processor divides small numbers fast and nobody can foresee the sign.
pub fn rounded(n: Words, d: u64, r: usize) -> Num
    requires { Roundable (two_words n.high.0 n.low) d r }
    ensures { result.0 ≡ nearest (two_words n.high.0 n.low) (d * 1024 ^ r) }
{
    let twice = whole::plus(doubled(words_worth(n).unsigned_abs(), r));
    let point = whole::nearest(twice, 2 * d);
    on_side(n.high, whole::size(point))
}
