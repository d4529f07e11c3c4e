// What is answered to a line that cannot be read, and what is told of it: `:ROW:COLUMN: ` and what is wrong, with the word
// where one is wrong.
ghost use Rattle.std.specs.Prelude.{◌≤◌, length};
ghost use Rattle.text.specs.tell.Tell.{unreadable, placed, quoted, told, complaint, told_most, Quotable};
ghost use Rattle.spell.specs.Decimal.{Written};

use crate::words::{Cursor, Wrong};
use spell::{write_bytes, write_natural};

// `:ROW:COLUMN: `, the column counted from 1.
// kept: room is asked of the whole lent buffer, which is what `Written` speaks of
fn write_place(row: u64, start: usize, out: &mut [u8]) -> usize
    requires { (start ≤ 4096) × (told_most ≤ length out.old) }
    ensures { Written 44 out.old 0 (placed row start) out.new result }
{
    let a = write_bytes(b":", out, 0);
    let b = write_natural(row, out, a);
    let c = write_bytes(b":", out, b);
    let d = write_natural((start + 1) as u64, out, c);
    write_bytes(b": ", out, d)
}

// The word in quotes, and what is wrong with it.
// kept: `spell` writes into a buffer from a place on, and `Written` says both
fn write_quoted(word: &[u8], what: &[u8], out: &mut [u8], at: usize) -> usize
    requires { (at ≤ 44) × (length word.now ≤ 4096) × (length what.now ≤ 32) × (told_most ≤ length out.old) }
    ensures { Written 4132 out.old at (quoted word.now what.now) out.new result }
{
    let a = write_bytes(b"\"", out, at);
    let b = write_bytes(word, out, a);
    let c = write_bytes(b"\" ", out, b);
    write_bytes(what, out, c)
}

// What is wrong with a word.
// kept: `spell` writes into a buffer from a place on, and `Written` says both
fn write_reason(word: &[u8], wrong: Wrong, out: &mut [u8], at: usize) -> usize
    requires { (at ≤ 44) × (length word.now ≤ 4096) × (told_most ≤ length out.old) }
    ensures { Written 4132 out.old at (told word.now wrong) out.new result }
{
    match wrong {
        Wrong::NotNumber => write_quoted(word, b"is not a whole number\n", out, at),
        Wrong::Outside => write_quoted(word, b"is outside its bounds\n", out, at),
        Wrong::LeftOver => write_quoted(word, b"is left over\n", out, at),
        Wrong::TooFew => write_bytes(b"too few words\n", out, at),
        Wrong::TooLong => write_bytes(b"longer than 4096 bytes\n", out, at),
        Wrong::Other(_) => write_bytes(b"longer than 4096 bytes\n", out, at),
    }
}

pub fn tell(line: &[u8], cursor: Cursor, row: u64, out: &mut [u8]) -> usize
    requires { Quotable line.now cursor × (told_most ≤ length out.old) }
    ensures { Written 4176 out.old 0 (complaint row line.now cursor) out.new result }
{
    let at = write_place(row, cursor.start, out);
    write_reason(
        &line[cursor.start..cursor.end],
        cursor.wrong.unwrap_or(Wrong::TooLong),
        out,
        at,
    )
}

// `unreadable`.
pub fn unreadable(out: &mut [u8]) -> usize
    requires { 11 ≤ length out.old }
    ensures { Written 11 out.old 0 unreadable out.new result }
{
    write_bytes(b"unreadable\n", out, 0)
}
