// The lines of an input, out of parts of it: each is answered where its newline is read.
ghost use Rattle.std.specs.Prelude.{◌≡◌};
ghost use Rattle.asking.specs.answers.Contract.{behind_line, Takes};

use crate::answers::answer;

// Where the reading of an input stands: how many bytes of the line are kept, and the line's number.
#[derive(Clone, Copy)]
pub struct Lines {
    pub kept: usize,
    pub row: u64,
}

// Where reading goes on in the part, where it stands then, and how many bytes were written to a line that ended.
#[derive(Clone, Copy)]
pub struct Taken {
    pub at: usize,
    pub lines: Lines,
    pub answer: usize,
    pub complaint: usize,
}

// Where reading goes on behind a line that ended, of which so many bytes were written.
fn behind(at: usize, row: u64, answer: usize, complaint: usize) -> Taken
    ensures { result ≡ behind_line at row answer complaint }
{
    Taken {
        at,
        lines: Lines {
            kept: 0,
            row: capped::more(row),
        },
        answer,
        complaint,
    }
}

// The part from `at` on up to its next newline. A line that ends there is answered; else what there is of it is kept at the
// front of `line`. The end of an input is told by a newline more: an empty line is passed over.
pub fn take(
    part: &[u8],
    at: usize,
    lines: Lines,
    line: &mut [u8],
    out: &mut [u8],
    err: &mut [u8],
) -> Taken
    ensures { Takes part.now at lines line.old out.old err.old
        line.new out.new err.new result }
{
    let piece = text::pieces::cut(part, at, line, lines.kept);
    if !piece.ended {
        return Taken {
            at: piece.at,
            lines: Lines {
                kept: piece.kept,
                ..lines
            },
            answer: 0,
            complaint: 0,
        };
    }
    let said = answer(&line[..piece.kept], lines.row, out, err);
    behind(piece.at, lines.row, said.answer, said.complaint)
}
