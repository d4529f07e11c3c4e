// A patch line: what it says behind the word `patch`, two degrees, a surface and a path, and its answer line (rule Patches on patches; 02, ticket 8).
ghost use Rattle.std.specs.Prelude.{◌≤◌, length};
ghost use Rattle.text.specs.words.Read.{Inside};
ghost use Rattle.text.specs.kinds.Kinds.{longest_line};
ghost use Rattle.text.specs.kinds.Read.{answer_most, Replies};
ghost use Rattle.spell.specs.Decimal.{Written};
ghost use Rattle.patch_net.specs.Patch.{patch_of};
ghost use Rattle.asking.specs.patch_line.Line.{reply_of, spoken};
ghost use Rattle.asking.specs.patch_line.Read.{ReadsPatch, Fits, line_in};

use answer_line::write_patch;
use text::kinds::read_end;
use text::numbers::{number, read_list};
use text::rooms::{Rooms, read_rooms, shown};
use text::words::Cursor;

// What a patch line says besides its two lists, of which the counts are here, unless the cursor is refused.
#[derive(Clone, Copy)]
pub struct Reading {
    pub cursor: Cursor,
    pub n: u32,
    pub N: u32,
    pub surface: usize,
    pub path: usize,
    pub rooms: Rooms,
}

// n and N; a list of control values, a list of path numbers; two rooms, if wanted; and no word more.
// kept: no plainer: what is read and what is refused (`Reading`, `After`, a refusal) hold a cursor without its line
fn read_patch(line: &[u8], from: Cursor, surface: &mut [i32; 64], path: &mut [i32; 64]) -> Reading
    requires { Inside line.now from }
    ensures { ReadsPatch line.now from surface.old path.old surface.new path.new result }
{
    let n = number(line, from, 0, 4294967295);
    let N = number(line, n.cursor, 0, 4294967295);
    let values = read_list(line, N.cursor, surface);
    let numbers = read_list(line, values.cursor, path);
    let lent = read_rooms(line, numbers.cursor, 55);
    Reading {
        cursor: read_end(line, lent.cursor),
        n: n.value.size as u32,
        N: N.value.size as u32,
        surface: values.value,
        path: numbers.value,
        rooms: lent.value,
    }
}

// The answer line of a patch, with arrays of its rooms lent.
// kept: no twin of a ride's: `compose` fills two arrays for its numerators where `patch` fills one, and `given` goes to `shown`
fn reply_in(
    n: u32,
    N: u32,
    given: bool,
    surface: &[i32],
    path: &[i32],
    exact: &mut [i64],
    points: &mut [i32],
    out: &mut [u8],
) -> usize
    requires { (length exact.old ≤ 64) × (length points.old ≤ 64) × (answer_most ≤ length out.old) }
    ensures { Written answer_most out.old 0
        (reply_of (patch_of n N surface.now path.now) given exact.old points.old) out.new result }
{
    let answer = patch::patch(n, N, surface, path, exact, points);
    let c = shown(given, answer.count, exact.len());
    let d = shown(given, answer.count, points.len());
    write_patch(
        answer.number,
        answer.place,
        answer.count,
        &exact[..c],
        &points[..d],
        out,
    )
}

// The same of what was read, with arrays that are filled beforehand.
fn reply_read(reading: Reading, surface: &[i32], path: &[i32], out: &mut [u8]) -> usize
    requires { Fits reading surface.now path.now out.old }
    ensures { Written answer_most out.old 0 (line_in reading surface.now path.now) out.new result }
{
    let mut exact = [-7i64; 64];
    let mut points = [-9i32; 64];
    let rooms = reading.rooms;
    reply_in(
        reading.n,
        reading.N,
        rooms.given,
        &surface[..reading.surface],
        &path[..reading.path],
        &mut exact[..rooms.exact],
        &mut points[..rooms.points],
        out,
    )
}

// The answer line of a patch line, of which the first word was read.
pub fn reply(line: &[u8], from: Cursor, out: &mut [u8]) -> Result<usize, Cursor>
    requires { Inside line.now from × (length line.now ≤ longest_line) × (answer_most ≤ length out.old) }
    ensures { Replies (spoken line.now from) line.now out.old out.new result }
{
    let mut surface = [0i32; 64];
    let mut path = [0i32; 64];
    let reading = read_patch(line, from, &mut surface, &mut path);
    if reading.cursor.wrong.is_some() {
        return Err(reading.cursor);
    }
    Ok(reply_read(reading, &surface, &path, out))
}
