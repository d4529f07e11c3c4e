// The five lines, as bytes in a lent buffer.
ghost use Rattle.std.specs.Prelude.{◌≤◌, length};
ghost use Rattle.spell.specs.Decimal.{Written};
ghost use Rattle.fives.specs.Lines.{lines_room, five_lines, Told};

use crate::Five;

// The lines one after the other.
fn write_lines(five: Five, out: &mut [u8]) -> usize
    requires { lines_room ≤ length out.old }
    ensures { Written lines_room out.old 0 (five_lines five) out.new result }
{
    let a = spell::write_named(b"calls", five.calls, out, 0);
    let b = spell::write_named(b"same", five.same, out, a);
    let c = spell::write_named(b"differ", five.differ, out, b);
    let d = spell::write_named(b"first", five.first, out, c);
    spell::write_named(b"rest", five.rest, out, d)
}

// Writes the five lines at the front of `out` and answers how many bytes they are. Under 134 bytes of room nothing is
// written: 0.
// kept: the contract `Told`: what is counted is bytes, and the room is of these lines alone
pub fn write_five(five: Five, out: &mut [u8]) -> usize
    ensures { Told five out.old result out.new }
{
    if out.len() < 134 {
        return 0;
    }
    write_lines(five, out)
}
