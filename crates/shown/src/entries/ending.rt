// The closing line: where the reading of a night ended, and why: a length that no record has, a pair that is cut off, or the
// trace's end.
ghost use Rattle.std.specs.Prelude.{◌≡◌, ◌+◌};
ghost use Rattle.wire.specs.Start.{length_field, is_length};
ghost use Rattle.pairs.specs.Cut.{longest_record};
ghost use Rattle.feed.specs.Feed.{capped};
ghost use Rattle.page.specs.Page.{Puts};
ghost use Rattle.page.specs.Form.{formed};
ghost use Rattle.shown.specs.entries.Text.{endings};
ghost use Rattle.shown.specs.entries.Ending.{cut_off, second_ending, ending_line};

use crate::entries::Line;
use page::Paper;

// Cut off behind `rest` bytes.
fn cut(offset: u64, rest: u64, kept: &[u8]) -> Line
    ensures { formed result.form endings kept.now kept.now result.n result.m ≡ cut_off offset rest }
{
    Line {
        form: 1,
        n: capped::sum(offset, rest),
        m: offset,
    }
}

#[tactic(auto, unfolding(wire::specs::Start::is_length))]
fn is_length(n: u64) -> bool
    ensures { result ≡ is_length longest_record n }
{
    8 <= n && n <= pairs::LONGEST as u64
}

// Where the second record begins: behind the first.
fn second_at(offset: u64, kept: &[u8]) -> u64
    ensures { result ≡ capped (offset + length_field kept.now) }
{
    capped::sum(offset, wire::word_at(kept, 0))
}

// Behind a first record of a right length.
fn second_ending(offset: u64, rest: u64, kept: &[u8]) -> Line
    ensures { formed result.form endings kept.now kept.now result.n result.m ≡ second_ending offset rest kept.now }
{
    if rest < wire::word_at(kept, 0) + 2 {
        return cut(offset, rest, kept);
    }
    let second = wire::word_at(pairs::behind(kept), 0);
    if is_length(second) {
        return cut(offset, rest, kept);
    }
    Line {
        form: 2,
        n: second,
        m: second_at(offset, kept),
    }
}

fn ending(offset: u64, rest: u64, kept: &[u8]) -> Line
    ensures { formed result.form endings kept.now kept.now result.n result.m ≡ ending_line offset rest kept.now }
{
    if rest == 0 {
        return Line {
            form: 0,
            n: 0,
            m: offset,
        };
    }
    if rest < 2 {
        return cut(offset, rest, kept);
    }
    let first = wire::word_at(kept, 0);
    if is_length(first) {
        return second_ending(offset, rest, kept);
    }
    Line {
        form: 2,
        n: first,
        m: offset,
    }
}

// `rest` bytes were read from the start of the pair that is not whole, at byte `offset`; `kept` are the first of them.
pub fn put_ending(offset: u64, rest: u64, kept: &[u8], page: &mut [u8]) -> usize
    ensures { Puts page.old 0 (ending_line offset rest kept.now) page.new result }
{
    let line = ending(offset, rest, kept);
    let mut paper = Paper { bytes: page, at: 0 };
    paper.put_form(
        line.form,
        b"the trace ends at byte !A\n;cut off at byte !1, in the pair that begins at byte !A\n;length !1 at byte !A\n",
        kept,
        kept,
        line.n,
        line.m,
    );
    paper.at
}
