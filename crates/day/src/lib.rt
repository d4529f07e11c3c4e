// A day's trace as it comes from an input: its sheet and the fourteen lines. What a file holds is not known here; it is promised that
// what was written is the sheet of the bytes that were read.
#![tactic(auto)]

pub mod daily;
mod sheet_lines;
pub mod sheets;

ghost use Rattle.day.specs.Telling.{Sheets};

use crate::sheets::Sheet;
use streams::{Source, Stream};

// The input behind a day, the output behind its lines, and its sheet.
#[derive(Clone, Copy)]
pub struct Told {
    pub input: Stream,
    pub out: Stream,
    pub sheet: Sheet,
}

// Reads a day to its end and writes its fourteen lines; where a read failed there are none, since lines of a part could be taken
// for those of the whole.
// kept: that how far it is be told is the caller's wish (`progress::begin`), and switches no step here
pub fn sheet_all(input: Stream, source: &Source, progress: bool, out: Stream) -> Told
    ensures { Sheets input out result }
{
    let mut part = io::large_buffer();
    let mut lines = [0u8; 628];
    let mut progress = progress::begin(progress, source);
    let (input, state) = reading::read_all(
        input,
        source,
        &mut part,
        crate::daily::new(),
        crate::daily::take,
        |input, _| {
            progress = progress::tell(progress, b"sheet: bytes so far", input.count);
            true
        },
    );
    let sheet = state.sheet;
    if input.failed {
        return Told { input, out, sheet };
    }
    let n = crate::sheet_lines::write_sheet(sheet, &mut lines);
    Told {
        input,
        out: streams::write(out, &lines[..n]),
        sheet,
    }
}
