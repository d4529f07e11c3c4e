// The answer lines, written into a lent buffer: of a request, its number, place, count and entries, then both lists; of a reading
// at a tick, its number, place and reading.
#![tactic(auto)]

mod long_decimal;

ghost use Rattle.std.specs.Prelude.{[], ◌∷◌, ◌≡◌, ◌+◌, ◌*◌, ◌≤◌, ℤ, ℕ, map, length};
ghost use Rattle.spell.specs.Decimal.{decimal, Written};
ghost use Rattle.two_words.specs.Words.{two_words, numbers_of};
ghost use Rattle.answer_line.specs.Answer.{spaced, judged, verdict, lists, answer_line, patch_line, reading_line, Listed};

use crate::long_decimal::write_words;
use spell::{write_bytes, write_natural, write_next_natural, write_number};
use two_words::Words;
use whole::Num;

// A number as a line has it: with a space before it, in at most so many bytes.
trait Number: Copy {
    ghost value: { Self → ℤ };

    ghost room: { ℕ };

    fn write_next(self, out: &mut [u8], at: usize) -> usize
        requires { at + room ≤ length out.old }
        ensures { Written room out.old at (32 ∷ decimal (value self)) out.new result };
}

impl Number for Num {
    ghost value = { λ n. n.0 };

    ghost room = { 21 };

    fn write_next(self, out: &mut [u8], at: usize) -> usize {
        out[at] = b' ';
        write_number(self, out, at + 1)
    }
}

impl Number for i64 {
    ghost value = { λ n. n };

    ghost room = { 21 };

    fn write_next(self, out: &mut [u8], at: usize) -> usize {
        Num(self).write_next(out, at)
    }
}

impl Number for i32 {
    ghost value = { λ n. n };

    ghost room = { 21 };

    fn write_next(self, out: &mut [u8], at: usize) -> usize {
        Num(i64::from(self)).write_next(out, at)
    }
}

// By its two words, high and low.
impl Number for (i64, u64) {
    ghost value = { λ n. two_words n.0 n.1 };

    ghost room = { 41 };

    fn write_next(self, out: &mut [u8], at: usize) -> usize {
        let (high, low) = self;
        out[at] = b' ';
        write_words(
            Words {
                high: Num(high),
                low,
            },
            out,
            at + 1,
        )
    }
}

// Each number of a list.
fn write_all<T: Number>(list: &[T], out: &mut [u8], at: usize) -> usize
    requires { at + T.room * length list.now ≤ length out.old }
    ensures { Written (T.room * length list.now) out.old at (spaced (map T.value list.now)) out.new result }
{
    let mut end = at;
    for n in list {
        end = n.write_next(out, end);
    }
    end
}

// Each numerator of two lists of words.
// kept: the C interface: high and low words are lent as two arrays (`lean_compose`)
fn write_numerators(high: &[i64], low: &[u64], out: &mut [u8], at: usize) -> usize
    requires { (length low.now ≡ length high.now) × (at + 41 * length high.now ≤ length out.old) }
    ensures { Written (41 * length high.now) out.old at
        (spaced (numbers_of high.now low.now)) out.new result }
{
    let mut end = at;
    for (k, high) in high.iter().enumerate() {
        end = (*high, low[k]).write_next(out, end);
    }
    end
}

// `number place`.
// kept: what may not change: the public `write_answer`, `write_patch` and `write_reading` take the two apart
fn write_judged(number: u32, place: usize, out: &mut [u8], at: usize) -> usize
    requires { at + 41 ≤ length out.old }
    ensures { Written 41 out.old at (judged number place) out.new result }
{
    let a = write_natural(u64::from(number), out, at);
    write_next_natural(place as u64, out, a)
}

// `number place count entries`.
fn write_verdict(
    number: u32,
    place: usize,
    count: usize,
    entries: u64,
    out: &mut [u8],
    at: usize,
) -> usize
    requires { at + 83 ≤ length out.old }
    ensures { Written 83 out.old at (verdict number place count entries) out.new result }
{
    let a = write_judged(number, place, out, at);
    let b = write_next_natural(count as u64, out, a);
    write_next_natural(entries, out, b)
}

// A bar before a list.
fn write_bar(out: &mut [u8], at: usize) -> usize
    requires { at + 2 ≤ length out.old }
    ensures { Written 2 out.old at (32 ∷ 124 ∷ []) out.new result }
{
    write_bytes(b" |", out, at)
}

// ` | numerators | points`.
// kept: beside `write_both`, since numerators lie in two arrays, as C lends them, and are no slice of one Number
fn write_lists(high: &[i64], low: &[u64], points: &[i32], out: &mut [u8], at: usize) -> usize
    requires { Listed high.now low.now points.now × (at + 4000 ≤ length out.old) }
    ensures { Written 4000 out.old at (lists (numbers_of high.now low.now) points.now) out.new result }
{
    let a = write_bar(out, at);
    let b = write_numerators(high, low, out, a);
    let c = write_bar(out, b);
    write_all(points, out, c)
}

// The answer line, with its newline.
pub fn write_answer(
    number: u32,
    place: usize,
    count: usize,
    entries: u64,
    high: &[i64],
    low: &[u64],
    points: &[i32],
    out: &mut [u8],
    at: usize,
) -> usize
    requires { Listed high.now low.now points.now × (at + 4096 ≤ length out.old) }
    ensures { Written 4096 out.old at
        (answer_line number place count entries (numbers_of high.now low.now) points.now) out.new result }
{
    let a = write_verdict(number, place, count, entries, out, at);
    let b = write_lists(high, low, points, out, a);
    out[b] = b'\n';
    b + 1
}

// ` | numerators | points` of a patch, whose numerators are numbers of one word.
fn write_both(exact: &[i64], points: &[i32], out: &mut [u8], at: usize) -> usize
    requires { (length exact.now ≤ 64) × (length points.now ≤ 64) × (at + 2692 ≤ length out.old) }
    ensures { Written 2692 out.old at (lists exact.now points.now) out.new result }
{
    let a = write_bar(out, at);
    let b = write_all(exact, out, a);
    let c = write_bar(out, b);
    write_all(points, out, c)
}

// The answer line of a patch, with its newline.
pub fn write_patch(
    number: u32,
    place: usize,
    count: usize,
    exact: &[i64],
    points: &[i32],
    out: &mut [u8],
) -> usize
    requires { (length exact.now ≤ 64) × (length points.now ≤ 64) × (4096 ≤ length out.old) }
    ensures { Written 4096 out.old 0
        (patch_line number place count exact.now points.now) out.new result }
{
    let a = write_judged(number, place, out, 0);
    let b = write_next_natural(count as u64, out, a);
    let c = write_both(exact, points, out, b);
    out[c] = b'\n';
    c + 1
}

// `number place reading` and a newline.
pub fn write_reading(number: u32, place: usize, reading: Num, out: &mut [u8]) -> usize
    requires { 4096 ≤ length out.old }
    ensures { Written 4096 out.old 0 (reading_line number place reading.0) out.new result }
{
    let next = write_judged(number, place, out, 0);
    let b = reading.write_next(out, next);
    out[b] = b'\n';
    b + 1
}
