// A tick line: what it says behind the word `tick`, a net of points and k, and its answer line, the reading of the curve at k/1024
// (rule Reading at a tick; 02, ticket 9).
ghost use Rattle.std.specs.Prelude.{◌≡◌, ◌≤◌, length};
ghost use Rattle.text.specs.words.Read.{Inside};
ghost use Rattle.text.specs.kinds.Kinds.{longest_line};
ghost use Rattle.text.specs.kinds.Read.{answer_most, Replies};
ghost use Rattle.spell.specs.Decimal.{Written};
ghost use Rattle.asking.specs.tick_line.Line.{tick_answer, spoken};
ghost use Rattle.asking.specs.tick_line.Read.{ReadsTick};

use text::kinds::read_end;
use text::numbers::{number, read_list};
use text::words::Cursor;
use tick::{Moment, Tick};
use whole::Num;

// What a tick line says besides its points, of which the count is here, unless the cursor is refused.
#[derive(Clone, Copy)]
pub struct Reading {
    pub cursor: Cursor,
    pub count: usize,
    pub k: u32,
}

// A count and as many points, to the front of `points`; k; and no word more.
fn read_tick(line: &[u8], from: Cursor, points: &mut [i32; 64]) -> Reading
    requires { Inside line.now from }
    ensures { ReadsTick line.now from points.old points.new result }
{
    let listed = read_list(line, from, points);
    let moment = number(line, listed.cursor, 0, 4294967295);
    Reading {
        cursor: read_end(line, moment.cursor),
        count: listed.value,
        k: moment.value.size as u32,
    }
}

fn reading_of(told: Tick) -> Num
    ensures { result.0 ≡ told.reading }
{
    Num(told.reading)
}

fn write_told(told: Tick, out: &mut [u8]) -> usize
    requires { answer_most ≤ length out.old }
    ensures { Written answer_most out.old 0 (tick_answer told) out.new result }
{
    answer_line::write_reading(told.number, told.place, reading_of(told), out)
}

// The answer line of a tick line, of which the first word was read.
pub fn reply(line: &[u8], from: Cursor, out: &mut [u8]) -> Result<usize, Cursor>
    requires { Inside line.now from × (length line.now ≤ longest_line) × (answer_most ≤ length out.old) }
    ensures { Replies (spoken line.now from) line.now out.old out.new result }
{
    let mut points = [0i32; 64];
    let reading = read_tick(line, from, &mut points);
    if reading.cursor.wrong.is_some() {
        return Err(reading.cursor);
    }
    let told = tick::read(&points[..reading.count], Moment(reading.k));
    Ok(write_told(told, out))
}
