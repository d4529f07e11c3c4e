// Reading a trace in parts, for any fold of its pairs: a byte more of a pair that is not whole yet, which is held in a lent array. No
// function asks anything of its caller, but `take` that what adds a pair may be called.
#![tactic(auto)]

ghost use Rattle.std.specs.Prelude.{◌≡◌, take};
ghost use Rattle.feed.specs.Feed.{held_of, Puts, Leaves, Hands, after_byte, ahead as ahead_of};
ghost use Rattle.feed.specs.Takes.{Adds, Takes};

// What a byte did: how many bytes there are from the pair's start on, and whether they are a whole pair.
#[derive(Clone, Copy)]
pub struct Turn {
    pub rest: u64,
    // kept: `Puts` and `put-determined` read the number of bytes whether they are whole or not
    pub whole: bool,
}

// What a turn handed on: how many bytes there are from the start of the pair that is not whole yet, how many bytes the pair is that
// is handed on, or 0, and how many bytes of the part were taken.
#[derive(Clone, Copy)]
pub struct Handed {
    pub rest: u64,
    // kept: 0 for none, as `Hands`, which `next` promises, and the law `turned` have it
    pub size: usize,
    pub bytes: usize,
}

// The bytes that are kept of a pair.
const HELD: usize = 256;

// A byte more.
// kept: the array is lent, with the number of bytes beside it, as `Puts` and the state in C have them
fn put(most: usize, held: &mut [u8], rest: u64, b: u8) -> Turn
    ensures { Puts most held.old rest b held.new result }
{
    let next = capped::more(rest);
    let at = rest as usize;
    if held.len() <= at {
        return Turn {
            rest: next,
            whole: false,
        };
    }
    held[at] = b;
    let end = at + 1;
    Turn {
        rest: next,
        whole: pairs::pair_size(most, &held[..end]) != 0,
    }
}

// The same as a turn: a pair that is whole is handed on.
// kept: the array and the number beside it, as in `put`
fn step(most: usize, held: &mut [u8], rest: u64, b: u8) -> Handed
    ensures { Leaves (after_byte most held.old rest b) held.new result }
{
    let turn = put(most, held, rest, b);
    if turn.whole {
        return Handed {
            rest: 0,
            size: turn.rest as usize,
            bytes: 1,
        };
    }
    Handed {
        rest: turn.rest,
        size: 0,
        bytes: 1,
    }
}

// How many bytes the whole pair is that lies ahead; 0 where one has begun, or it is more than is kept.
fn ahead(most: usize, rest: u64, part: &[u8]) -> usize
    ensures { result ≡ ahead_of most rest part.now }
{
    if rest != 0 {
        return 0;
    }
    let n = pairs::pair_size(most, part);
    if HELD < n {
        return 0;
    }
    n
}

// A turn of reading a part: it hands on the whole pair that lies ahead, or takes one byte. A pair that is handed on stands at the
// front of the array.
pub fn next(most: usize, held: &mut [u8; 256], rest: u64, part: &[u8]) -> Handed
    ensures { Hands most held.old rest part.now held.new result }
{
    if part.is_empty() {
        return Handed {
            rest,
            size: 0,
            bytes: 0,
        };
    }
    let n = ahead(most, rest, part);
    // kept: 0 for none, as the definition `ahead` behind `Hands` has it
    if n == 0 {
        return step(most, held, rest, part[0]);
    }
    held[..n].copy_from_slice(&part[..n]);
    Handed {
        rest: 0,
        size: n,
        bytes: n,
    }
}

// Zeros behind the bytes that are kept, so that what is held is what was read and nothing else.
// kept: a loop, since `fill` leaves a call of memset in lean_replay, which reads them no more, and for AArch64 needs memset for nothing else
pub fn settle(held: &mut [u8; 256], rest: u64)
    ensures { held.new ≡ held_of (take rest held.old) }
{
    let start = HELD.min(rest as usize);
    for i in start..HELD {
        held[i] = 0;
    }
}

// What a part adds to a state: each pair that it makes whole is added, one after the other. What has begun of the next one is kept at the
// front of the array, with zeros behind it; how many bytes it has is handed back, and the state.
pub fn take<S: Copy, F: Fn(S, &[u8]) -> S>(
    held: &mut [u8; 256],
    rest: u64,
    state: S,
    part: &[u8],
    add: F,
) -> (u64, S)
    requires { F.IsAlwaysCallable add }
    ensures { Takes (Adds F.Fn add) held.old rest state part.now held.new result.0 result.1 }
{
    let mut rest = rest;
    let mut state = state;
    let mut left = part;
    // kept: a turn says itself how many bytes it takes, so that there is nothing to count
    while !left.is_empty() {
        let turn = next(pairs::LONGEST, held, rest, left);
        // kept: 0 for none, in `Hands`
        if turn.size != 0 {
            state = add(state, &held[..turn.size]);
        }
        rest = turn.rest;
        left = &left[turn.bytes..];
    }
    settle(held, rest);
    (rest, state)
}
