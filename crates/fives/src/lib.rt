// The five numbers of a recorded night: how a pair is counted, and the five lines. Whether the recorded reply of a pair is today's is
// asked elsewhere; the numbers are in specs/Replay.antt.
#![tactic(auto)]

mod lines;

ghost use Rattle.std.specs.Prelude.{◌≡◌, cond, eqb};
ghost use Rattle.fives.specs.Count.{counted};

pub use lines::write_five;

// The five numbers.
#[derive(Clone, Copy)]
pub struct Five {
    pub calls: u64,
    pub same: u64,
    pub differ: u64,
    pub first: u64,
    pub rest: u64,
}

// The numbers of the whole pairs so far.
#[derive(Clone, Copy)]
pub struct Tally {
    pub calls: u64,
    pub same: u64,
    pub differ: u64,
    pub first: u64,
}

// The number of the first pair that differs, where call `call` does.
fn first_of(first: u64, call: u64) -> u64
    ensures { result ≡ cond (eqb first 0) call first }
{
    // kept: the definition `counted`: none is 0, as rule Trace prints it
    if first == 0 { call } else { first }
}

// One pair more, whose recorded reply is today's or not.
#[tactic(auto, unfolding(crate::specs::Count::counted))]
pub fn count_pair(tally: Tally, alike: bool) -> Tally
    ensures { result ≡ counted tally alike }
{
    let calls = capped::more(tally.calls);
    if alike {
        Tally {
            calls,
            same: capped::more(tally.same),
            ..tally
        }
    } else {
        Tally {
            calls,
            differ: capped::more(tally.differ),
            first: first_of(tally.first, calls),
            ..tally
        }
    }
}
