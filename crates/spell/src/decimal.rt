// Whole numbers written out in decimal digits, into a lent buffer.
ghost use Rattle.std.specs.Prelude.{◌+◌, ◌≤◌, length};
ghost use Rattle.spell.specs.Decimal.{digits, decimal, Written};

use whole::Num;

// The digits of n from `at` on. Answers where they end.
fn write_digits(n: u64, out: &mut [u8], at: usize) -> usize
    requires { at + length (digits n) ≤ length out.old }
    ensures { Written (length (digits n)) out.old at (digits n) out.new result }
{
    if n < 10 {
        out[at] = b'0' + n as u8;
        return at + 1;
    }
    let next = write_digits(n / 10, out, at);
    out[next] = b'0' + (n % 10) as u8;
    next + 1
}

// A number of 64 bits without a sign, where there is room for any.
pub fn write_natural(n: u64, out: &mut [u8], at: usize) -> usize
    requires { at + 20 ≤ length out.old }
    ensures { Written 20 out.old at (digits n) out.new result }
{
    write_digits(n, out, at)
}

// A number of 64 bits, where there is room for any.
pub fn write_number(n: Num, out: &mut [u8], at: usize) -> usize
    requires { at + 20 ≤ length out.old }
    ensures { Written 20 out.old at (decimal n.0) out.new result }
{
    let size = whole::size(n);
    if whole::negative(n) {
        out[at] = b'-';
        return write_digits(size, out, at + 1);
    }
    write_digits(size, out, at)
}
