// The converter of ticket 10 (rule Old traces): a trace as it was read when a request without an age counted as age 0, made one
// for today's door. A converter by value takes the trace in parts, cut anywhere, and puts the converted trace into lent buffers of
// a fixed size. What becomes of a whole trace is crate aging's, how it is cut and read crates pairs' and feed's. No function that
// is public asks anything of its caller.
ghost use Rattle.std.specs.Prelude.{◌≡◌, true, [], ◌+◌, ◌≤◌, leb, length, take};
ghost use Rattle.pairs.specs.Cut.{longest_record, starts_pair};
ghost use Rattle.feed.specs.Feed.{held_room, blank, given};
ghost use Rattle.aging.specs.Convert.{former_longest, ageless as ageless_in, aged, starts_long, ends_long};
ghost use Rattle.renewal.specs.converter.Put.{counts, aged_bytes, begun, converter_of, feed_of, last_out, part_room, out_room, front};
ghost use Rattle.renewal.specs.converter.Put.{after_part, Fills, turn_out, Handing, Plain, Writes};
ghost use Rattle.spell.specs.Decimal.{Told};

use feed::Handed;

// The bytes of the pair that is not whole yet, with zeros behind them; how many bytes there are from its start on; and how many
// requests of the pairs before it are changed.
#[derive(Clone, Copy)]
pub struct Converter {
    pub held: [u8; 256],
    pub rest: u64,
    pub changed: u64,
}

// The converter behind a part, how many bytes of the part it took, and how many it put out.
#[derive(Clone, Copy)]
pub struct Taken {
    pub converter: Converter,
    pub bytes: usize,
    pub count: usize,
}

// The greatest length of a record that was read before.
const FORMER_LONGEST: usize = 126;

// The kinds of a request, without and with the age of its tilt sample.
const REQUEST_KIND: u64 = 0x0001;

const AGED_KIND: u8 = 0x0002;

// The bytes that are kept of a pair.
const HELD: u64 = 256;

// The most bytes that are taken of a part at once, and the room for what these can put out.
pub const PART: usize = 65536;

pub const ROOM: usize = 74016;

// Whether a request carries no age.
fn ageless(request: &[u8]) -> bool
    ensures { result ≡ ageless_in request.now }
{
    wire::word_at(request, 2) == REQUEST_KIND
}

// One request more that is changed, where a pair of `size` bytes was handed on and its request carries no age.
fn gather(changed: u64, held: &[u8], size: usize) -> u64
    requires { size ≤ length held.now }
    ensures { result ≡ given counts changed held.now size }
{
    // kept: the contract of `feed::next`: no pair is handed on where the size is 0
    if size != 0 && ageless(pairs::record_in(&held[..size])) {
        capped::more(changed)
    } else {
        changed
    }
}

// The length of a request with its age.
fn aged_length(request: &[u8]) -> usize
    ensures { result ≡ length request.now + 2 }
{
    request.len() + 2
}

// A request without an age, with age 0.
fn put_aged(request: &[u8], out: &mut [u8], at: usize) -> usize
    requires { Plain request.now × (at + length (aged request.now) ≤ length out.old) }
    ensures { Writes (aged request.now) out.old at out.new result }
{
    let size = aged_length(request);
    let low = (size % 256) as u8;
    let high = (size / 256) as u8;
    let head = [
        low, high, AGED_KIND, 0, request[4], request[5], request[6], request[7], 0, 0,
    ];
    let next = spell::write_bytes(&head, out, at);
    spell::write_bytes(&request[8..], out, next)
}

// The pair at the front, its request with an age.
fn put_pair(pair: &[u8], out: &mut [u8], at: usize) -> usize
    requires { (starts_pair former_longest pair.now ≡ true) × (at + length (aged_bytes pair.now) ≤ length out.old) }
    ensures { Writes (aged_bytes pair.now) out.old at out.new result }
{
    let request = pairs::record_in(pair);
    let reply = pairs::record_in(pairs::behind(pair));
    if ageless(request) {
        let next = put_aged(request, out, at);
        return spell::write_bytes(reply, out, next);
    }
    let next = spell::write_bytes(request, out, at);
    spell::write_bytes(reply, out, next)
}

// So much is kept that no pair can become whole any more; it was put out when it came.
fn has_ended(rest: u64) -> bool
    ensures { result ≡ leb held_room rest }
{
    HELD <= rest
}

// What a turn puts out: the pair that it handed on, or all that is kept where that is as much as can be, or behind that its byte.
fn put_turn(held: &[u8], turn: Handed, before: u64, b: u8, out: &mut [u8], at: usize) -> usize
    requires { Handing held.now turn.size × (at + length (turn_out held.now turn before b) ≤ length out.old) }
    ensures { Writes (turn_out held.now turn before b) out.old at out.new result }
{
    let size = turn.size;
    // kept: the contract of `feed::next`, as above
    if size != 0 {
        return put_pair(&held[..size], out, at);
    }
    if has_ended(before) {
        out[at] = b;
        return at + 1;
    }
    if turn.rest == HELD {
        return spell::write_bytes(held, out, at);
    }
    at
}

// A converter that keeps nothing.
fn blank(changed: u64) -> Converter
    ensures { result ≡ converter_of (blank changed) }
{
    Converter {
        held: [0u8; 256],
        rest: 0,
        changed,
    }
}

// A converter that has taken nothing.
pub fn new() -> Converter
    ensures { result ≡ begun }
{
    blank(0)
}

// All of a part, where there is room for what it can put out.
fn fill(converter: Converter, part: &[u8], out: &mut [u8]) -> Taken
    requires { (length part.now ≤ part_room) × (out_room ≤ length out.old) }
    ensures { Fills converter part.now out.old result out.new }
{
    let mut held = converter.held;
    let mut rest = converter.rest;
    let mut changed = converter.changed;
    let mut i = 0;
    let mut at = 0;
    // kept: a turn takes one byte or a whole pair, so this is no `for`
    while i < part.len() {
        let turn = feed::next(FORMER_LONGEST, &mut held, rest, &part[i..]);
        at = put_turn(&held, turn, rest, part[i], out, at);
        changed = gather(changed, &held, turn.size);
        rest = turn.rest;
        i += turn.bytes;
    }
    feed::settle(&mut held, rest);
    Taken {
        converter: Converter {
            held,
            rest,
            changed,
        },
        bytes: i,
        count: at,
    }
}

// The same converter, with zeros behind what it keeps.
fn settled(converter: Converter) -> Converter
    ensures { result ≡ after_part converter [] }
{
    let mut next = converter;
    feed::settle(&mut next.held, next.rest);
    next
}

// The next part, of which at most 65,536 bytes are taken. What they put out is written to the front of `out`; where that has not the
// room for the most that they can put out, 74,016 bytes, nothing is taken.
pub fn take(converter: Converter, part: &[u8], out: &mut [u8]) -> Taken
    ensures { Fills converter (front part.now out.old) out.old result out.new }
{
    if out.len() < ROOM {
        return Taken {
            converter: settled(converter),
            bytes: 0,
            count: 0,
        };
    }
    fill(converter, &part[..PART.min(part.len())], out)
}

// The bytes that are kept, of which there are `rest` or more than an array holds.
fn kept(held: &[u8], rest: u64) -> &[u8]
    ensures { result.now ≡ take rest held.now }
{
    &held[..held.len().min(rest as usize)]
}

// What is still kept when the trace has ended, at the front of `out`, and how many bytes that is. Under 256 bytes of room nothing
// is written: 0.
pub fn last(converter: Converter, out: &mut [u8]) -> usize
    ensures { Told held_room (last_out (feed_of converter)) out.old result out.new }
{
    if out.len() < 256 {
        return 0;
    }
    if has_ended(converter.rest) {
        return 0;
    }
    spell::write_bytes(kept(&converter.held, converter.rest), out, 0)
}

// Not over the greatest length of a record that is read today.
fn fits_today(n: u64) -> bool
    ensures { result ≡ leb n longest_record }
{
    n <= 128
}

// A record's length stands here, and it is 127 or 128.
#[tactic(auto, unfolding(aging::specs::Convert::starts_long, wire::specs::Start::length_field))]
fn starts_long(bytes: &[u8]) -> bool
    ensures { result ≡ starts_long bytes.now }
{
    let n = wire::word_at(bytes, 0);
    2 <= bytes.len() && 127 <= n && fits_today(n)
}

// The old reading ended at such a length, of the request that starts here or of the reply behind it.
// kept: of one shape with `waits` of crate salvaging, as the definitions of both are; one function would be longer than its two bodies
#[tactic(auto, unfolding(aging::specs::Convert::ends_long))]
fn ends_long(left: &[u8]) -> bool
    ensures { result ≡ ends_long left.now }
{
    starts_long(left)
        || pairs::starts_record(FORMER_LONGEST, left) && starts_long(pairs::behind(left))
}

// Whether the trace cannot be converted: its old reading ended at a record length of 127 or 128.
pub fn refused(converter: Converter) -> bool
    ensures { result ≡ ends_long (feed_of converter).kept }
{
    ends_long(kept(&converter.held, converter.rest))
}
