// A night as it comes from an input: its five numbers and their lines. What a file holds is not
// known here; it is promised that what was written is that of the bytes that were read.
#![tactic(auto)]

mod far;
pub mod listing;

ghost use Rattle.night.specs.Reading.{Replays};

use door::tally::Reader;
use fives::Five;
use progress::Progress;
use streams::{Source, Stream};

// The input behind a night, the output behind its lines, and its numbers.
#[derive(Clone, Copy)]
pub struct Replayed {
    pub input: Stream,
    pub out: Stream,
    pub five: Five,
}

// Tells how far the reading is, where it is time.
// kept: what may not change: the public `progress::is_due` takes it
fn tell(progress: Progress, input: Stream, reader: Reader, ended: bool) -> Progress {
    if !progress::is_due(progress, ended) {
        return progress;
    }
    let mut page = [0u8; 160];
    let n = far::put_far(
        progress,
        input.count,
        door::tally::finish(reader).calls,
        ended,
        &mut page,
    );
    streams::write(streams::standard_error(), page::front(&page, n));
    progress::told(progress)
}

// Reads a night to its end and writes its five lines; where a read failed there are none, since lines of a part could be taken
// for those of the whole.
pub fn replay_all(input: Stream, source: &Source, progress: Progress, out: Stream) -> Replayed
    ensures { Replays input out result }
{
    let mut part = io::large_buffer();
    let mut lines = [0u8; 134];
    let mut progress = progress;
    let (input, reader) = reading::read_all(
        input,
        source,
        &mut part,
        door::tally::new(),
        door::tally::take,
        |input, reader| {
            progress = tell(progress, input, reader, false);
            true
        },
    );
    tell(progress, input, reader, true);
    let five = door::tally::finish(reader);
    if input.failed {
        return Replayed { input, out, five };
    }
    let n = fives::write_five(five, &mut lines);
    Replayed {
        input,
        out: streams::write(out, &lines[..n]),
        five,
    }
}
