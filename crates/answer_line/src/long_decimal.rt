// A whole number by two words, written out in decimal digits into a lent buffer.
ghost use Rattle.std.specs.Prelude.{◌≡◌, ◌+◌, ◌*◌, ◌^◌, ◌≤◌, ◌<◌, length};
ghost use Rattle.spell.specs.Decimal.{digits, decimal, Written};
ghost use Rattle.two_words.specs.Words.{two_words};

use spell::write_natural;
use two_words::Words;

const BASE: u64 = 4294967296;

// A size by two words over ten: the quotient by two words, and what is left.
#[derive(Clone, Copy)]
pub struct Tenth {
    pub high: u64,
    pub low: u64,
    pub digit: u64,
}

// Divides as one does by hand, 32 bits at a time below the high word.
fn over_ten(high: u64, low: u64) -> Tenth
    ensures { (2 ^ 64 * high + low ≡ 10 * (2 ^ 64 * result.high + result.low) + result.digit) × (result.digit < 10) × (10 * result.high ≤ high) }
{
    let upper = high % 10 * BASE + low / BASE;
    let lower = upper % 10 * BASE + low % BASE;
    let rest = upper / 10 * BASE + lower / 10;
    Tenth {
        high: high / 10,
        low: rest,
        digit: lower % 10,
    }
}

// The digits of a size by two words from `at` on, where there is room for any. Answers where they end.
fn write_size(high: u64, low: u64, out: &mut [u8], at: usize) -> usize
    requires { at + 39 ≤ length out.old }
    ensures { Written 39 out.old at (digits (2 ^ 64 * high + low)) out.new result }
{
    if high == 0 {
        return write_natural(low, out, at);
    }
    let tenth = over_ten(high, low);
    let digit = tenth.digit;
    let next = write_size(tenth.high, tenth.low, out, at);
    out[next] = 48 + digit as u8;
    next + 1
}

// The number, where there is room for any: a minus below 0, and its digits.
pub fn write_words(n: Words, out: &mut [u8], at: usize) -> usize
    requires { at + 40 ≤ length out.old }
    ensures { Written 40 out.old at (decimal (two_words n.high.0 n.low)) out.new result }
{
    let size = two_words::size_of(n);
    if whole::negative(n.high) {
        out[at] = b'-';
        write_size(size.high, size.low, out, at + 1)
    } else {
        write_size(size.high, size.low, out, at)
    }
}
