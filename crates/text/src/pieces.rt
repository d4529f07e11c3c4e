// Lines out of parts of the input: each part is read up to its next newline, and what comes before it is kept behind
// what was kept of the line so far. A line that is too long keeps its front. And which lines are passed over.
ghost use Rattle.std.specs.Prelude.{◌≡◌, ◌≤◌, length, take};
ghost use Rattle.spell.specs.Decimal.{Front};
ghost use Rattle.text.specs.pieces.Kept.{is_passed, kept_byte, Cuts};

use crate::words::is_blank;

// Where reading goes on in the part, how many bytes of the line are kept, and whether the line has ended.
#[derive(Clone, Copy)]
pub struct Piece {
    pub at: usize,
    pub kept: usize,
    // kept: where reading goes on and what is kept hold either way
    pub ended: bool,
}

// A byte behind those that are kept; where there is no more room, in place of a blank at the end.
// kept: `Cuts` says what every place of the lent buffer holds, behind what is kept too
fn keep_byte(line: &mut [u8], kept: usize, b: u8) -> usize
    requires { kept ≤ length line.old }
    ensures { Front (kept_byte (length line.old) (take kept line.old) b) line.old line.new result }
{
    if kept < line.len() {
        line[kept] = b;
        return kept + 1;
    }
    if kept > 0 && is_blank(line[kept - 1]) {
        line[kept - 1] = b;
    }
    kept
}

// The part from `at` on, up to its next newline or its end.
// kept: `Cuts` says what every place of the lent buffer holds, behind what is kept too
pub fn cut(part: &[u8], at: usize, line: &mut [u8], kept: usize) -> Piece
    ensures { Cuts part.now at line.old kept line.new result }
{
    let mut end = kept.min(line.len());
    for i in at..part.len() {
        if part[i] == b'\n' {
            return Piece {
                at: i + 1,
                kept: end,
                ended: true,
            };
        }
        end = keep_byte(line, end, part[i]);
    }
    Piece {
        at: at.max(part.len()),
        kept: end,
        ended: false,
    }
}

// Whether a line is passed over: it begins with `#`, or has nothing but blanks.
pub fn is_passed(line: &[u8]) -> bool
    ensures { result ≡ is_passed line.now }
{
    line.starts_with(b"#") || line.iter().all(|&b| is_blank(b))
}
