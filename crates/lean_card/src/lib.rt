// The f64 card for C and Rust: a part as three numbers, its record in lent arrays.
#![tactic(auto)]

ghost use Rattle.std.specs.Prelude.{◌≡◌};
ghost use Rattle.lean_card.specs.Driven.{part_of, driven_by, Driven};

use crossing::put;
use part::Part;

#[tactic(auto, unfolding(crate::specs::Driven::part_of))]
fn part_of(line: u32, first: f64, second: f64) -> Part
    ensures { result ≡ part_of line first second }
{
    match line {
        0 => Part::Stay(first),
        _ => Part::Line(first, second),
    }
}

// Answers a part of the curve of degree m: a stay at `first` where `line` is 0, a line from `first` to `second` where it is 1.
// Writes the record to the first five of `numerators`, and its number, place and count to the first three of `words`: 0. Where
// either has fewer places, or `line` is another number, nothing at all is written: 1.
// kept: the C interface has numbers for the kind of a part and for the code
#[unsafe(no_mangle)]
pub extern "C" fn lean_card(
    m: u32,
    surface: &[i32],
    line: u32,
    first: f64,
    second: f64,
    numerators: &mut [f64],
    words: &mut [u64],
) -> u32
    ensures { Driven (driven_by m surface.now line first second) line numerators.old words.old result
        numerators.new words.new }
{
    if words.len() < 3 || numerators.len() < 5 || line > 1 {
        return 1;
    }
    let card = card::drive(m, surface, part_of(line, first, second));
    numerators[..5].copy_from_slice(&card.numerators);
    put(words, 0, u64::from(card.number));
    put(words, 1, card.place as u64);
    put(words, 2, card.count as u64);
    0
}
