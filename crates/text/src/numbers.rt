// The numbers of a line, read from left to right: one of them, a list after its count, the head of a request. Each reader is
// handed a cursor and hands one on, and of a cursor that is refused it reads nothing.
ghost use Rattle.std.specs.Prelude.{◌≡◌, cond, ◌≤◌, ◌<◌};
ghost use Rattle.text.specs.words.Words.{signed};
ghost use Rattle.text.specs.words.Read.{cap, Inside};
ghost use Rattle.text.specs.numbers.Numbers.{most, ReadsNumber, ReadsValues, ReadsList, ReadsHead};

use crate::words::{After, Cursor, Whole, because, next, number_of};
use request::Head;

// The next word as a number from -below to above; 0 where it is refused. It is read where it is wanted, since a list of numbers spends most of
// its time here: a call hands a cursor and a number through memory.
#[inline(always)]
pub fn number(line: &[u8], from: Cursor, below: u64, above: u64) -> After<Whole>
    requires { (Inside line.now from) × (below < cap) × (above < cap) }
    ensures { ReadsNumber line.now from below above result }
{
    let word = next(line, from);
    let nothing = Whole {
        minus: false,
        size: 0,
    };
    if word.wrong.is_some() {
        return After {
            cursor: word,
            value: nothing,
        };
    }
    match number_of(&line[word.start..word.end], below, above) {
        Ok(value) => After {
            cursor: word,
            value,
        },
        Err(wrong) => After {
            cursor: because(word, wrong),
            value: nothing,
        },
    }
}

// The value of 32 bits that a number is.
// kept: no conversion of the library's takes a sign and a size
fn value_of(n: Whole) -> i32
    requires { n.size ≤ cond n.minus 2147483648 2147483647 }
    ensures { result ≡ signed n.minus n.size }
{
    if n.minus {
        -(n.size as i64) as i32
    } else {
        n.size as i32
    }
}

// So many values, to the front of out.
fn read_values(line: &[u8], from: Cursor, count: usize, out: &mut [i32; 64]) -> Cursor
    requires { (Inside line.now from) × (count ≤ most) }
    ensures { ReadsValues line.now from count out.old out.new result }
{
    let mut cursor = from;
    for k in 0..count {
        let read = number(line, cursor, 2147483648, 2147483647);
        out[k] = value_of(read.value);
        cursor = read.cursor;
    }
    cursor
}

// A count and as many values, to the front of out.
pub fn read_list(line: &[u8], from: Cursor, out: &mut [i32; 64]) -> After<usize>
    requires { Inside line.now from }
    ensures { ReadsList line.now from out.old out.new result }
{
    let counted = number(line, from, 0, 64);
    let count = counted.value.size as usize;
    After {
        cursor: read_values(line, counted.cursor, count, out),
        value: count,
    }
}

// The form, the two degrees and N.
pub fn read_head(line: &[u8], from: Cursor) -> After<Head>
    requires { Inside line.now from }
    ensures { ReadsHead line.now from result }
{
    let form = number(line, from, 0, 4294967295);
    let first = number(line, form.cursor, 0, 4294967295);
    let second = number(line, first.cursor, 0, 4294967295);
    let N = number(line, second.cursor, 0, 4294967295);
    After {
        cursor: N.cursor,
        value: Head {
            form: form.value.size as u32,
            first: first.value.size as u32,
            second: second.value.size as u32,
            N: N.value.size as u32,
        },
    }
}
