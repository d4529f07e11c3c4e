// Request lines, read: what a line says, or what is wrong with it and where. The readers are handed a cursor and hand one on,
// straight to the end of the line; once it is refused they read nothing more.
#![tactic(auto)]

pub mod kinds;
pub mod numbers;
pub mod pieces;
pub mod rooms;
pub mod tell;
pub mod words;

ghost use Rattle.text.specs.words.Read.{Inside};
ghost use Rattle.text.specs.Read.{ReadsAge, ReadsLine};

use crate::kinds::{begin, read_end};
use crate::numbers::{read_head, read_list};
use crate::rooms::{Rooms, read_rooms};
use crate::words::{After, Cursor, age_of, because, next};
use request::Head;

// What a line says besides its two lists, of which the counts are here: a request, unless the cursor is refused.
#[derive(Clone, Copy)]
pub struct Reading {
    pub cursor: Cursor,
    pub head: Head,
    pub surface: usize,
    pub path: usize,
    pub rooms: Rooms,
    pub age: u16,
}

// The age: 0 where no word is left, else the number of a word that begins with `age=`.
fn read_age(line: &[u8], from: Cursor) -> After<u16>
    requires { Inside line.now from }
    ensures { ReadsAge line.now from result }
{
    let word = next(line, from);
    if word.wrong.is_some() {
        return After {
            cursor: from,
            value: 0,
        };
    }
    match age_of(&line[word.start..word.end]) {
        Ok(age) => After {
            cursor: word,
            value: age as u16,
        },
        Err(wrong) => After {
            cursor: because(word, wrong),
            value: 0,
        },
    }
}

// What a line says, without its newline. The numbers of its lists are written to the front of the two lent arrays.
pub fn read_line(line: &[u8], surface: &mut [i32; 64], path: &mut [i32; 64]) -> Reading
    ensures { ReadsLine line.now surface.old path.old surface.new path.new result }
{
    let headed = read_head(line, begin(line));
    let values = read_list(line, headed.cursor, surface);
    let numbers = read_list(line, values.cursor, path);
    let lent = read_rooms(line, numbers.cursor, request::MOST_POINTS);
    let aged = read_age(line, lent.cursor);
    Reading {
        cursor: read_end(line, aged.cursor),
        head: headed.value,
        surface: values.value,
        path: numbers.value,
        rooms: lent.value,
        age: aged.value,
    }
}
