// The rooms of a line: how many places its answer may take in each list, where the line says so, and which of them are shown.
ghost use Rattle.std.specs.Prelude.{◌≡◌, ◌≤◌};
ghost use Rattle.text.specs.words.Read.{Inside};
ghost use Rattle.text.specs.numbers.Numbers.{most};
ghost use Rattle.text.specs.rooms.Shown.{shown};
ghost use Rattle.text.specs.rooms.Read.{ReadsRooms};

use crate::kinds::left_over;
use crate::numbers::number;
use crate::words::{After, Cursor, is_age, next};

// Room for numerators and for points, and whether the line gives them.
#[derive(Clone, Copy)]
pub struct Rooms {
    // kept: there are rooms either way
    pub given: bool,
    pub exact: usize,
    pub points: usize,
}

// The rooms: `own` each where no word is left or the next one is the age, else two numbers; a word alone is left over.
pub fn read_rooms(line: &[u8], from: Cursor, own: usize) -> After<Rooms>
    requires { Inside line.now from × (own ≤ most) }
    ensures { ReadsRooms own line.now from result }
{
    let none = After {
        cursor: from,
        value: Rooms {
            given: false,
            exact: own,
            points: own,
        },
    };
    let word = next(line, from);
    if word.wrong.is_some() || is_age(&line[word.start..word.end]) {
        return none;
    }
    if next(line, word).wrong.is_some() {
        let alone = left_over(word);
        return After {
            cursor: alone,
            ..none
        };
    }
    let exact = number(line, from, 0, 64);
    let points = number(line, exact.cursor, 0, 64);
    After {
        cursor: points.cursor,
        value: Rooms {
            given: true,
            exact: exact.value.size as usize,
            points: points.value.size as usize,
        },
    }
}

// How many places of an array are shown: all where the line gives rooms, else those that the answer counts, as far as there is room.
// kept: `given` is what the line says, and chooses a number
#[tactic(auto, unfolding(crate::specs::rooms::Shown::shown))]
pub fn shown(given: bool, count: usize, room: usize) -> usize
    ensures { (result ≡ shown given count room) × (result ≤ room) }
{
    if given { room } else { count.min(room) }
}
