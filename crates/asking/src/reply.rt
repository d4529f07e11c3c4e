// The answer line of a request line: the composer's answer, and its arrays in the places that are shown.
ghost use Rattle.std.specs.Prelude.{◌≤◌, length};
ghost use Rattle.request.specs.Request.{request_of};
ghost use Rattle.compose.specs.Afterwards.{arrays};
ghost use Rattle.answer_line.specs.Answer.{Listed};
ghost use Rattle.text.specs.kinds.Read.{answer_most, Replies};
ghost use Rattle.asking.specs.reply.Reply.{reply_of, Fits, line_in, spoken};
ghost use Rattle.spell.specs.Decimal.{Written};

use answer_line::write_answer;
use request::Head;
use request::units::Age;
use text::Reading;
use text::rooms::shown;
use text::words::Cursor;

// The low word of -7, whose high word is -1.
const LOW_SEVEN: u64 = 18446744073709551609;

// The answer line of a request, with arrays of its rooms lent.
// kept: `given` goes to `shown`, which chooses a number by it
fn reply_in(
    head: Head,
    age: Age,
    given: bool,
    surface: &[i32],
    path: &[i32],
    high: &mut [i64],
    low: &mut [u64],
    points: &mut [i32],
    out: &mut [u8],
) -> usize
    requires { Listed high.old low.old points.old × (4096 ≤ length out.old) }
    ensures { Written 4096 out.old 0 (reply_of (request_of head surface.now path.now) age.0 given
        (arrays high.old low.old points.old)) out.new result }
{
    let composed = compose::compose(head, age, surface, path, high, low, points);
    let answer = composed.answer;
    let c = shown(given, answer.count, high.len());
    let d = shown(given, answer.count, points.len());
    write_answer(
        answer.number,
        answer.place,
        answer.count,
        composed.entries,
        &high[..c],
        &low[..c],
        &points[..d],
        out,
        0,
    )
}

// The same of what was read, with arrays that are filled beforehand.
fn reply_read(reading: Reading, surface: &[i32], path: &[i32], out: &mut [u8]) -> usize
    requires { Fits reading surface.now path.now out.old }
    ensures { Written 4096 out.old 0 (line_in reading surface.now path.now) out.new result }
{
    let mut high = [-1i64; 64];
    let mut low = [LOW_SEVEN; 64];
    let mut points = [-9i32; 64];
    let rooms = reading.rooms;
    reply_in(
        reading.head,
        Age(reading.age),
        rooms.given,
        &surface[..reading.surface],
        &path[..reading.path],
        &mut high[..rooms.exact],
        &mut low[..rooms.exact],
        &mut points[..rooms.points],
        out,
    )
}

// The answer line of what a line says: where it ends in the lent buffer, or where the line is wrong.
pub fn reply(line: &[u8], out: &mut [u8]) -> Result<usize, Cursor>
    requires { answer_most ≤ length out.old }
    ensures { Replies (spoken line.now) line.now out.old out.new result }
{
    let mut surface = [0i32; 64];
    let mut path = [0i32; 64];
    let reading = text::read_line(line, &mut surface, &mut path);
    if reading.cursor.wrong.is_some() {
        return Err(reading.cursor);
    }
    Ok(reply_read(reading, &surface, &path, out))
}
