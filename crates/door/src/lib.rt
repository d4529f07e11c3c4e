// The door for the drive's firmware (for C: crate door_c): one request slice, one lent reply slice. How a record is opened and judged is crate
// judgement's, how a reply is written crate replies'; of the composer only its promise is known here.
#![tactic(auto)]

pub mod tally;

ghost use Rattle.std.specs.Prelude.{◌≡◌, ◌+◌, ◌*◌, ◌≤◌, ◌<◌, length, set};
ghost use Rattle.request.specs.Head.{most_points};
ghost use Rattle.compose.specs.Afterwards.{afterwards};
ghost use Rattle.wire.specs.Words.{Short, number_at};
ghost use Rattle.judgement.specs.Judgement.{composed, judged};
ghost use Rattle.door.specs.Contract.{Answered};
ghost use Rattle.door.specs.Given.{Readable, Given};

use request::units::Age;
use request::{Answer, Head};
// As many control values as the greatest degrees ask for.
const MOST_VALUES: usize = 15;

// Reads `count` numbers that begin at byte `from` into the first places of `numbers`.
fn read_numbers(bytes: &[u8], from: usize, count: usize, numbers: &mut [i32])
    requires { (count ≤ length numbers.old) × (from + 2 * count ≤ length bytes.now) }
    ensures { numbers.new ≡ afterwards count (number_at bytes.now from) numbers.old }
{
    for k in 0..count {
        numbers[k] = wire::number_at(bytes, from + 2 * k).0 as i32;
    }
}

// The composer's answer to the request in a record whose degrees and length are right.
fn compose_in(request: &[u8], from: usize, head: Head, age: Age, points: &mut [i32]) -> Answer
    requires { Readable request.now from head age.0 × (length points.old ≡ most_points) }
    ensures { Given request.now (composed request.now) points.old result points.new }
{
    let surface_count = request::surface_count(head);
    let path_count = request::path_count(head);
    let mut surface = [0i32; MOST_VALUES];
    let mut path = [0i32; request::MOST_PATH_NUMBERS];
    let mut high = [0i64; request::MOST_POINTS];
    let mut low = [0u64; request::MOST_POINTS];
    read_numbers(request, from, surface_count, &mut surface);
    read_numbers(request, from + 2 * surface_count, path_count, &mut path);
    let composed = compose::compose(
        head,
        age,
        &surface[..surface_count],
        &path[..path_count],
        &mut high,
        &mut low,
        points,
    );
    composed.answer
}

// The door's own table, and then the composer.
fn judge_record(request: &[u8], points: &mut [i32]) -> Answer
    requires { length points.old ≡ most_points }
    ensures { Given request.now (judged request.now) points.old result points.new }
{
    let opened = judgement::open_record(request);
    if opened.refusal.is_refused() {
        return opened.refusal;
    }
    compose_in(request, opened.from, opened.head, opened.age, points)
}

// Judges a request and composes it. Under the room of the longest reply nothing is written and 0 is answered; otherwise the reply
// is written to the front of `reply` and its byte count is answered. The two slices never overlap.
pub fn door_reply(request: &[u8], reply: &mut [u8]) -> usize
    ensures { Answered request.now reply.old result reply.new }
{
    if reply.len() < replies::ROOM {
        return 0;
    }
    let mut points = [0i32; request::MOST_POINTS];
    let answer = judge_record(request, &mut points);
    let count = answer.count;
    replies::write_reply(answer, &points[..count], reply)
}
