// The answers to request lines, as bytes: what is written to a line, what is told of a line that cannot be read, and the
// lines of an input, out of parts of it. A program above reads parts, and writes what stands in the lent buffers.
mod lines;

ghost use Rattle.std.specs.Prelude.{◌≤◌, length};
ghost use Rattle.text.specs.kinds.Read.{answer_most, Replies};
ghost use Rattle.asking.specs.answers.Answer.{spoken_of};
ghost use Rattle.asking.specs.answers.Contract.{room, SaysAll, Answers};

pub use crate::answers::lines::{Lines, Taken, take};
use text::kinds::{begin, is_kind};
use text::words::{Cursor, next};

// How many bytes of the answer and of the complaint were written.
#[derive(Clone, Copy)]
pub struct Lengths {
    pub answer: usize,
    pub complaint: usize,
}

const NOTHING: Lengths = Lengths {
    answer: 0,
    complaint: 0,
};

// kept: room is asked of the whole lent buffer, which is what `Written` speaks of
// The answer line of what a line says, by its first word: where it ends in the lent buffer, or where the line is wrong.
fn reply_to(line: &[u8], out: &mut [u8]) -> Result<usize, Cursor>
    requires { answer_most ≤ length out.old }
    ensures { Replies (spoken_of line.now) line.now out.old out.new result }
{
    let word = next(line, begin(line));
    if is_kind(line, word, b"tick") {
        return crate::tick_line::reply(line, word, out);
    }
    if is_kind(line, word, b"patch") {
        return crate::patch_line::reply(line, word, out);
    }
    crate::reply::reply(line, out)
}

fn say(line: &[u8], row: u64, out: &mut [u8], err: &mut [u8]) -> Lengths
    requires { (room ≤ length out.old) × (room ≤ length err.old) }
    ensures { SaysAll line.now row out.old err.old out.new err.new result }
{
    if text::pieces::is_passed(line) {
        return NOTHING;
    }
    match reply_to(line, out) {
        Ok(end) => Lengths {
            answer: end,
            complaint: 0,
        },
        Err(cursor) => Lengths {
            answer: text::tell::unreadable(out),
            complaint: text::tell::tell(line, cursor, row, err),
        },
    }
}

// What is answered to a line, and what is told of it, to the front of the two lent buffers; nothing, where one of them has
// less than 8192 bytes. `row` is the line's number.
pub fn answer(line: &[u8], row: u64, out: &mut [u8], err: &mut [u8]) -> Lengths
    ensures { Answers line.now row out.old err.old out.new err.new result }
{
    if out.len() < 8192 || err.len() < 8192 {
        return NOTHING;
    }
    say(line, row, out, err)
}
