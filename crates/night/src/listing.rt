// A night told pair by pair, as it comes from an input: a line for each pair whose reply differs and where the reading ended, or one pair
// in words. What a file holds is not known here; it is promised that what was written is that of the bytes that were read.
ghost use Rattle.std.specs.Prelude.{◌≡◌, ◌+◌, ◌≤◌, length, take};
ghost use Rattle.door.specs.Contract.{reply_of};
ghost use Rattle.pairs.specs.Cut.{pair_in};
ghost use Rattle.feed.specs.Feed.{capped};
ghost use Rattle.shown.specs.Page.{shown_page};
ghost use Rattle.shown.specs.entries.Entry.{entry_line};
ghost use Rattle.night.specs.listing.Tale.{Tale, on_page, told_of, differing as differing_of, tells, closing};
ghost use Rattle.night.specs.listing.Contract.{Sends, Adds, Takes, Lists};

use page::front;
use shown::{put_ending, put_entry, put_page};
use streams::{Source, Stream};

// How many pairs there were, where the next one begins, how many of those asked for differ, and the output.
#[derive(Clone, Copy)]
struct State {
    calls: u64,
    offset: u64,
    differ: u64,
    out: Stream,
}

// The bytes of the pair that is not whole yet, how many there are from its start on, and where the telling stands.
#[derive(Clone, Copy)]
struct Reader {
    held: [u8; 256],
    rest: u64,
    state: State,
}

// A pair of a night: its number, where it begins, its two records, and today's reply.
#[derive(Clone, Copy)]
struct Entry<'a> {
    number: u64,
    offset: u64,
    request: &'a [u8],
    reply: &'a [u8],
    today: &'a [u8],
}

// The streams behind a night, and its numbers: whole pairs, those asked for whose reply differs, and the bytes that are left.
#[derive(Clone, Copy)]
pub struct Listed {
    pub input: Stream,
    pub out: Stream,
    pub calls: u64,
    pub differ: u64,
    pub rest: u64,
}

// The room of a page.
const PAGE: usize = 16384;

// One more where a pair that is asked for differs.
// kept: here and below whether the replies are alike is what `differing` and `told_of` say it of
#[tactic(auto, unfolding(crate::specs::listing::Tale::differing, crate::specs::listing::Tale::asked))]
fn differing(wanted: u64, alike: bool, number: u64, n: u64) -> u64
    ensures { result ≡ differing_of wanted alike number n }
{
    if !alike && (wanted == 0 || wanted == number) {
        return capped::more(n);
    }
    n
}

// The line of a pair. A function of its own, as `tell_page` is, also where it is compiled: what holds such a room clears it where it begins, and of
// the pairs of a night few are told.
#[inline(never)]
fn tell_line(pair: Entry<'_>, out: Stream) -> Stream
    ensures { Sends out (on_page (entry_line pair.entry.number pair.entry.offset pair.entry.request.now pair.entry.reply.now pair.entry.today.now)) result }
{
    let mut line = [0u8; PAGE];
    let n = put_entry(
        pair.number,
        pair.offset,
        pair.request,
        pair.reply,
        pair.today,
        &mut line,
    );
    streams::write(out, front(&line, n))
}

// Where all that differ are asked for: the line of a pair whose reply is not today's.
// kept: likewise
fn tell_entry(unchanged: bool, pair: Entry<'_>, out: Stream) -> Stream
    ensures { Sends out (told_of 0 unchanged pair.entry.number pair.entry.offset pair.entry.request.now pair.entry.reply.now pair.entry.today.now) result }
{
    if unchanged {
        return out;
    }
    tell_line(pair, out)
}

// The page of a pair. A function of its own for the same reason.
#[inline(never)]
fn tell_page(pair: Entry<'_>, out: Stream) -> Stream
    ensures { Sends out (on_page (shown_page pair.entry.number pair.entry.offset pair.entry.request.now pair.entry.reply.now pair.entry.today.now)) result }
{
    let mut page = [0u8; PAGE];
    let n = put_page(
        pair.number,
        pair.offset,
        pair.request,
        pair.reply,
        pair.today,
        &mut page,
    );
    streams::write(out, front(&page, n))
}

// kept: likewise
// What is told of a pair: its line where all that differ are asked for, or its page.
fn tell(wanted: u64, alike: bool, pair: Entry<'_>, out: Stream) -> Stream
    ensures { Sends out (told_of wanted alike pair.entry.number pair.entry.offset pair.entry.request.now pair.entry.reply.now pair.entry.today.now) result }
{
    // kept: 0 asks for each one, as `told_of`, `closing` and the contract of `list` have it
    if wanted == 0 {
        return tell_entry(alike, pair, out);
    }
    if wanted != pair.number {
        return out;
    }
    tell_page(pair, out)
}

// Where the next pair begins: behind this one's request and reply.
fn next_offset(offset: u64, request: &[u8], reply: &[u8]) -> u64
    ensures { result ≡ capped (capped (offset + length request.now) + length reply.now) }
{
    capped::sum(
        capped::sum(offset, request.len() as u64),
        reply.len() as u64,
    )
}

// The pair that starts here, and the door asked afresh.
fn ask(wanted: u64, state: State, pair: &[u8]) -> State
    ensures { Adds (λ (t : Tale). tells reply_of wanted t (pair_in pair.now)) state result }
{
    let request = pairs::record_in(pair);
    let reply = pairs::record_in(pairs::behind(pair));
    let mut today = [0u8; replies::ROOM];
    let count = door::door_reply(request, &mut today);
    let alike = check::same(&today[..count], reply);
    let number = capped::more(state.calls);
    let entry = Entry {
        number,
        offset: state.offset,
        request,
        reply,
        today: &today[..count],
    };
    let out = tell(wanted, alike, entry, state.out);
    State {
        calls: number,
        offset: next_offset(state.offset, request, reply),
        differ: differing(wanted, alike, number, state.differ),
        out,
    }
}

// The next part, of any length.
fn take(wanted: u64, reader: Reader, part: &[u8]) -> Reader
    ensures { Takes wanted reader part.now result }
{
    let mut held = reader.held;
    let (rest, state) = feed::take(&mut held, reader.rest, reader.state, part, |state, pair| {
        ask(wanted, state, pair)
    });
    Reader { held, rest, state }
}

// What is asked for was told, or cannot be written.
fn is_over(wanted: u64, state: State) -> bool {
    state.out.failed || wanted != 0 && wanted <= state.calls
}

// kept: that the last read failed is what `closing` says it of
// Where the reading ended is told where all that differ are asked for and the last read did not fail.
fn close(wanted: u64, failed: bool, reader: Reader) -> Stream
    ensures { Sends reader.state.out (closing wanted failed reader.state.offset reader.rest (take reader.rest reader.held)) result }
{
    let state = reader.state;
    // kept: 0 asks for each one, as in `tell`
    if wanted != 0 {
        return state.out;
    }
    if failed {
        return state.out;
    }
    let held = reader.held;
    let rest = reader.rest;
    let mut page = [0u8; PAGE];
    let n = put_ending(state.offset, rest, front(&held, rest as usize), &mut page);
    streams::write(state.out, front(&page, n))
}

// Tells pair `wanted` of a night, or all that differ where that is 0.
pub fn list(input: Stream, source: &Source, wanted: u64, out: Stream) -> Listed
    ensures { Lists wanted input out result }
{
    let mut part = io::large_buffer();
    let begun = Reader {
        held: [0u8; 256],
        rest: 0,
        state: State {
            calls: 0,
            offset: 0,
            differ: 0,
            out,
        },
    };
    let (input, reader) = reading::read_all(
        input,
        source,
        &mut part,
        begun,
        |reader, part| take(wanted, reader, part),
        |_, reader| !is_over(wanted, reader.state),
    );
    Listed {
        input,
        out: close(wanted, input.failed, reader),
        calls: reader.state.calls,
        differ: reader.state.differ,
        rest: reader.rest,
    }
}
