// The refusals' names, written into a lent buffer; and an answer line with its refusal by name.
#![tactic(auto)]

ghost use Rattle.std.specs.Prelude.{◌≡◌, ◌+◌, ◌-◌, ◌≤◌, ◌<◌, length, get_or, drop};
ghost use Rattle.spell.specs.Decimal.{Written};
ghost use Rattle.names.specs.Names.{name_of, first_width, first_number, by_name};

use spell::write_bytes;

// The name of a refusal; nothing where a number has none.
#[tactic(auto, unfolding(crate::specs::Names::name_of))]
pub fn name_of(n: u64) -> &'static [u8]
    ensures { result.now ≡ name_of n }
{
    match n {
        1 => b"KIND",
        2 => b"DEGREE",
        3 => b"SURFACE",
        4 => b"PATH",
        5 => b"ROOM",
        6 => b"VALUE",
        7 => b"PARAMETER",
        8 => b"BALANCE",
        9 => b"FRAME",
        10 => b"STALE",
        11 => b"MOMENT",
        _ => b"",
    }
}

// The name, written from a place on.
pub fn write_name(n: u64, out: &mut [u8], at: usize) -> usize
    requires { at + 9 ≤ length out.old }
    ensures { Written 9 out.old at (name_of n) out.new result }
{
    write_bytes(name_of(n), out, at)
}

// The number that an answer line begins with, of one digit or two, and what is behind it; 0 and the line where there is none.
#[tactic(auto, unfolding(crate::specs::Names::first_number, crate::specs::Names::first_width))]
fn first_number(line: &[u8]) -> (u64, &[u8])
    ensures number { result.0 ≡ first_number line.now }
    ensures behind { result.1.now ≡ drop (first_width line.now) line.now }
{
    match line {
        [a, b' ', ..] => (digit(*a), &line[1..]),
        [a, b, b' ', ..] => (10 * digit(*a) + digit(*b), &line[2..]),
        _ => (0, line),
    }
}

// The number that a digit is.
fn digit(b: u8) -> u64
    ensures { (result ≡ b - 48) × (result ≤ 207) }
{
    u64::from(b.saturating_sub(b'0'))
}

// An answer line with its refusal's name in place of the number, at the front of `out`.
pub fn write_by_name(line: &[u8], out: &mut [u8]) -> usize
    requires { length line.now + 9 ≤ length out.old }
    ensures { Written (length line.now + 9) out.old 0 (by_name line.now) out.new result }
{
    let (n, behind) = first_number(line);
    if name_of(n).is_empty() {
        return write_bytes(line, out, 0);
    }
    let at = write_name(n, out, 0);
    write_bytes(behind, out, at)
}
