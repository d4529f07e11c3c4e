// The five numbers of a recorded night: a reader by value that takes the trace in parts, cut anywhere. How a trace is cut and read is
// crates pairs' and feed's, the numbers are crate fives'; of the door only its promise is known here. No function that is
// public asks anything of its caller.
ghost use Rattle.std.specs.Prelude.{◌≡◌};
ghost use Rattle.door.specs.Contract.{reply_of};
ghost use Rattle.pairs.specs.Cut.{pair_in};
ghost use Rattle.fives.specs.Replay.{same_bytes, agrees};
ghost use Rattle.fives.specs.Count.{counts, no_pairs};
ghost use Rattle.door.specs.tally.Read.{blank_reader, after_part, five_in, replayed};

use fives::{Five, Tally};

// The bytes of the pair that is not whole yet, with zeros behind them; how many bytes there are from its start on; and the
// numbers of the pairs before it.
#[derive(Clone, Copy)]
pub struct Reader {
    pub held: [u8; 256],
    pub rest: u64,
    pub tally: Tally,
}

// The door asked afresh gives this reply, byte for byte.
fn is_today(request: &[u8], reply: &[u8]) -> bool
    ensures { result ≡ same_bytes (reply_of request.now) reply.now }
{
    let mut today = [0u8; replies::ROOM];
    let count = crate::door_reply(request, &mut today);
    check::same(&today[..count], reply)
}

// The recorded reply of the pair that starts here is today's, byte for byte.
pub fn agree(pair: &[u8]) -> bool
    ensures { result ≡ agrees reply_of (pair_in pair.now) }
{
    let request = pairs::record_in(pair);
    let reply = pairs::record_in(pairs::behind(pair));
    is_today(request, reply)
}

// One pair more, whose bytes are these.
fn count(tally: Tally, pair: &[u8]) -> Tally
    ensures { result ≡ counts reply_of tally (pair_in pair.now) }
{
    fives::count_pair(tally, agree(pair))
}

// The numbers of no pair.
fn no_pairs() -> Tally
    ensures { result ≡ no_pairs }
{
    Tally {
        calls: 0,
        same: 0,
        differ: 0,
        first: 0,
    }
}

// A reader that has read nothing.
pub fn new() -> Reader
    ensures { result ≡ blank_reader }
{
    Reader {
        held: [0u8; 256],
        rest: 0,
        tally: no_pairs(),
    }
}

// The next part, of any length.
// kept: its type is C's reader (`lean_replay`), and the sheet's is another; what both do is `feed::take`
pub fn take(reader: Reader, part: &[u8]) -> Reader
    ensures { result ≡ after_part reader part.now }
{
    let mut held = reader.held;
    let (rest, tally) = feed::take(&mut held, reader.rest, reader.tally, part, count);
    Reader { held, rest, tally }
}

// The numbers of the pairs, and the bytes that are left.
fn five_of(tally: Tally, rest: u64) -> Five
    ensures { result ≡ record { calls = tally.calls; same = tally.same; differ = tally.differ; first = tally.first; rest = rest } }
{
    Five {
        calls: tally.calls,
        same: tally.same,
        differ: tally.differ,
        first: tally.first,
        rest,
    }
}

// The five numbers of all that was read.
pub fn finish(reader: Reader) -> Five
    ensures { result ≡ five_in reader }
{
    five_of(reader.tally, reader.rest)
}

// The five numbers of a trace that is there as a whole.
pub fn replay(bytes: &[u8]) -> Five
    ensures { result ≡ replayed bytes.now }
{
    finish(take(new(), bytes))
}
