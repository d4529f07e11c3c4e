// Lines of bytes and numbers, written one after the other into a lent buffer: any bytes, a named number.
ghost use Rattle.std.specs.Prelude.{◌∷◌, ◌+◌, ◌≤◌, length};
ghost use Rattle.spell.specs.Decimal.{digits, named, Written};

use crate::decimal::write_natural;

// Any bytes.
pub fn write_bytes(bytes: &[u8], out: &mut [u8], at: usize) -> usize
    requires { at + length bytes.now ≤ length out.old }
    ensures { Written (length bytes.now) out.old at bytes.now out.new result }
{
    let end = at + bytes.len();
    out[at..end].copy_from_slice(bytes);
    end
}

// A space and a number.
pub fn write_next_natural(n: u64, out: &mut [u8], at: usize) -> usize
    requires { at + 21 ≤ length out.old }
    ensures { Written 21 out.old at (32 ∷ digits n) out.new result }
{
    out[at] = b' ';
    write_natural(n, out, at + 1)
}

// `name n` and a newline.
pub fn write_named(name: &[u8], n: u64, out: &mut [u8], at: usize) -> usize
    requires { at + (length name.now + 22) ≤ length out.old }
    ensures { Written (length name.now + 22) out.old at (named name.now n) out.new result }
{
    let a = write_bytes(name, out, at);
    let b = write_next_natural(n, out, a);
    out[b] = b'\n';
    b + 1
}
