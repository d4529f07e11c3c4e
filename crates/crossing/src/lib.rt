// How an answer crosses to C and Rust: its numbers in lent words, since a struct does not cross alike on every machine.
#![tactic(auto)]

ghost use Rattle.std.specs.Prelude.{◌≡◌, set};
ghost use Rattle.crossing.specs.Answered.{with_answer};

use request::Answer;

// Writes one word; where there is no such place, nothing.
// kept: an index, since `get_mut` was tried, and after it a proof knows how many words there are and none of them
pub fn put(words: &mut [u64], k: usize, x: u64)
    ensures { words.new ≡ set words.old k x }
{
    if k < words.len() {
        words[k] = x;
    }
}

// Writes the number, the place and the count of an answer, each where it has a place.
#[tactic(auto, unfolding(crate::specs::Answered::with_answer))]
pub fn put_answer(words: &mut [u64], answer: Answer)
    ensures { words.new ≡ with_answer answer words.old }
{
    put(words, 0, u64::from(answer.number));
    put(words, 1, answer.place as u64);
    put(words, 2, answer.count as u64);
}
