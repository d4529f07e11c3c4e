// A reply as bytes, at the front of a lent slice: the record is in specs/Reply.antt. Of how a request is judged nothing is known
// here.
#![tactic(auto)]

ghost use Rattle.std.specs.Prelude.{◌≡◌, ◌++◌, ◌+◌, ◌*◌, ◌/◌, ◌%◌, ◌≤◌, ◌<◌, length, set};
ghost use Rattle.wire.specs.Words.{Short, unsigned, number_bytes};
ghost use Rattle.wire.specs.Start.{start, record_start};
ghost use Rattle.replies.specs.Reply.{reply_kind, answer_bytes, room, over};
ghost use Rattle.replies.specs.Parts.{AllShort, InBytes, Sendable, Written};

use request::Answer;
use whole::Num;

const REPLY_KIND: u16 = 0x8001;

// Where a record's numbers begin.
const START: usize = 8;

// The bytes of the longest reply.
pub const ROOM: usize = START + 2 * request::MOST_POINTS;

// A signed number as an unsigned one.
#[tactic(auto, unfolding(wire::specs::Words::unsigned))]
fn word_of(n: Num) -> u16
    requires { Short n.0 }
    ensures { result ≡ unsigned n.0 }
{
    (n.0 as i16).cast_unsigned()
}

fn put_word(bytes: &mut [u8], k: usize, word: u16)
    requires { k + 1 < length bytes.old }
    ensures { bytes.new ≡ set (set bytes.old k (word % 256)) (k + 1) (word / 256) }
{
    bytes[k..k + 2].copy_from_slice(&word.to_le_bytes());
}

// Writes the numbers, two bytes each, from the first byte on.
fn write_numbers(numbers: &[i32], bytes: &mut [u8])
    requires { (2 * length numbers.now ≤ length bytes.old) × AllShort numbers.now }
    ensures { bytes.new ≡ over (number_bytes numbers.now) bytes.old }
{
    for k in 0..numbers.len() {
        let number = request::units::units_of(request::units::travel_at(numbers, k));
        put_word(bytes, 2 * k, word_of(number));
    }
}

// Writes a reply's first eight bytes.
fn write_head(a: Answer, size: u16, reply: &mut [u8])
    requires { InBytes a × (start ≤ length reply.old) }
    ensures { reply.new ≡ over (record_start size reply_kind ++ answer_bytes a) reply.old }
{
    put_word(reply, 0, size);
    put_word(reply, 2, REPLY_KIND);
    reply[4] = a.number as u8;
    reply[5] = a.place as u8;
    reply[6] = a.count as u8;
    reply[7] = 0;
}

// Writes the reply and answers its byte count. What stands beyond it stays.
pub fn write_reply(a: Answer, points: &[i32], reply: &mut [u8]) -> usize
    requires { Sendable a points.now × (room ≤ length reply.old) }
    ensures { Written a points.now reply.old result reply.new }
{
    let size = START + 2 * points.len();
    write_head(a, size as u16, reply);
    write_numbers(points, &mut reply[START..]);
    size
}
