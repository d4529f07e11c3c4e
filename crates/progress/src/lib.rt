// When it is time to tell how far a reading is: every second on a terminal, where one line is written again and again, and
// every five seconds elsewhere.
#![tactic(auto)]

ghost use Rattle.std.specs.Prelude.{◌≡◌};

use std::io::IsTerminal;
use std::rt::{Clock, HostRuntime};
use streams::Source;
use streams::source::{runtime, size_of};

// Whether anything is to be told, whether standard error is a terminal, how many bytes there are (0: not known), when it was told
// last, and the handle by which the clock is read. kept: the public `streams::source::size_of` answers 0 so.
#[derive(Clone, Copy)]
pub struct Progress {
    wanted: bool,
    pub terminal: bool,
    pub size: u64,
    last: u64,
    rt: HostRuntime,
}

// Seconds since a day long ago.
fn seconds(rt: HostRuntime) -> u64 {
    rt.since_1970().map_or(0, |time| time.as_secs())
}

pub fn begin(wanted: bool, input: &Source) -> Progress {
    let rt = runtime(input);
    Progress {
        wanted,
        terminal: rt.stderr().is_terminal(),
        size: size_of(input),
        last: seconds(rt),
        rt,
    }
}

// A clock that was set back counts as late.
fn is_late(progress: Progress, now: u64) -> bool {
    let pause = if progress.terminal { 1 } else { 5 };
    now.checked_sub(progress.last)
        .is_none_or(|passed| passed >= pause)
}

// Whether it is time; at the end it always is.
pub fn is_due(progress: Progress, ended: bool) -> bool {
    progress.wanted && (ended || is_late(progress, seconds(progress.rt)))
}

// It was told now; nothing else changes.
pub fn told(progress: Progress) -> Progress
    ensures { result ≡ record progress { last = result.last } }
{
    Progress {
        last: seconds(progress.rt),
        ..progress
    }
}

// The most bytes of a line's words, and the room of the line: its words, a blank, a number of 64 bits and the line's end.
const WORDS: usize = 40;

const ROOM: usize = WORDS + 22;

// Tells on a line how many bytes were read, behind these words as far as there is room, where it is time to.
pub fn tell(progress: Progress, what: &[u8], count: u64) -> Progress
    ensures { result ≡ record progress { last = result.last } }
{
    if !is_due(progress, false) {
        return progress;
    }
    let mut line = [0u8; ROOM];
    let n = spell::write_named(&what[..what.len().min(WORDS)], count, &mut line, 0);
    streams::write(streams::standard_error(), &line[..n]);
    told(progress)
}
