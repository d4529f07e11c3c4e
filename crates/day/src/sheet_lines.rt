// The daily sheet's fourteen lines, as bytes in a lent buffer (rule Daily sheet; 02, ticket 12). No function that is public asks anything of its caller.
ghost use Rattle.std.specs.Prelude.{◌≡◌, ◌+◌, ◌*◌, ◌≤◌, length};
ghost use Rattle.spell.specs.Decimal.{Written};
ghost use Rattle.day.specs.sheet_lines.Lines.{refusal_line, refusal_lines, value_of, point_line, sheet_lines, refusal_room, lines_room, Told};

use crate::sheets::Sheet;
use whole::Num;

// kept: here and below a lent buffer and a place in it, as `Written`, which spell's functions promise too, has them (no heap)
fn write_refusal(n: u64, count: u64, out: &mut [u8], at: usize) -> usize
    requires { at + refusal_room ≤ length out.old }
    ensures { Written refusal_room out.old at (refusal_line n count) out.new result }
{
    let a = spell::write_bytes(b"refusal ", out, at);
    let b = spell::write_natural(n, out, a);
    let c = spell::write_next_natural(count, out, b);
    out[c] = b'\n';
    c + 1
}

// kept: likewise
fn write_refusals(counts: &[u64], out: &mut [u8], at: usize) -> usize
    requires { at + refusal_room * length counts.now ≤ length out.old }
    ensures { Written (refusal_room * length counts.now) out.old at (refusal_lines 0 counts.now) out.new result }
{
    let mut end = at;
    for (n, count) in counts.iter().enumerate() {
        end = write_refusal(n as u64, *count, out, end);
    }
    end
}

// A point, or `none`.
// kept: `value_of` in specs/ takes the flag of a `Span` and its number, which C hands in beside one another
fn write_value(some: bool, z: Num, out: &mut [u8], at: usize) -> usize
    requires { at + 20 ≤ length out.old }
    ensures { Written 20 out.old at (value_of some z.0) out.new result }
{
    if some {
        return spell::write_number(z, out, at);
    }
    spell::write_bytes(b"none", out, at)
}

// kept: likewise, and the flag of a `Span`, which is no Option
fn write_point(name: &[u8], some: bool, z: Num, out: &mut [u8], at: usize) -> usize
    requires { at + (length name.now + 21) ≤ length out.old }
    ensures { Written (length name.now + 21) out.old at (point_line name.now some z.0) out.new result }
{
    let a = spell::write_bytes(name, out, at);
    let b = write_value(some, z, out, a);
    out[b] = b'\n';
    b + 1
}

// The lines one after the other.
fn write_lines(sheet: Sheet, out: &mut [u8]) -> usize
    requires { lines_room ≤ length out.old }
    ensures { Written lines_room out.old 0 (sheet_lines sheet) out.new result }
{
    let span = sheet.span;
    let a = spell::write_named(b"odd", sheet.odd, out, 0);
    let b = write_refusals(&sheet.refusals, out, a);
    let c = write_point(b"least ", span.some, Num(span.least), out, b);
    write_point(b"most ", span.some, Num(span.most), out, c)
}

// Writes the fourteen lines at the front of `out` and answers how many bytes they are. Under 628 bytes of room nothing is
// written: 0.
// kept: 0 for no room is what `Told` promises
pub fn write_sheet(sheet: Sheet, out: &mut [u8]) -> usize
    ensures { Told sheet out.old result out.new }
{
    if out.len() < 628 {
        return 0;
    }
    write_lines(sheet, out)
}
