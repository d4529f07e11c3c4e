// The reading of an input, over any state that takes a part: what it promises is stated in specs/, its laws are in proofs/.
#![tactic(auto)]

ghost use Rattle.reading.specs.Parts.{Reads, TakenAt};

use streams::{Source, Stream};

// Reads an input part by part until nothing more comes, a read fails, or it is not to go on; the state takes each part, also the last one,
// which has no byte. Nothing says that an input ends, and a proved loop has to: it counts its turns, up to a number that no run reaches.
pub fn read_all<S: Copy, T: Fn(S, &[u8]) -> S, G: FnMut(Stream, S) -> bool>(
    input: Stream,
    source: &Source,
    part: &mut [u8],
    state: S,
    take: T,
    mut goes_on: G,
) -> (Stream, S)
    requires takes { T.IsAlwaysCallable take }
    requires asks { G.IsAlwaysCallable goes_on }
    ensures { Reads (TakenAt T.Fn take) input state result.0 result.1 }
{
    let mut input = input;
    let mut state = state;
    for _ in 0..u64::MAX {
        let got = streams::read(input, source, part);
        input = got.stream;
        state = take(state, &part[..got.count]);
        // kept: 0 is an input's end, as std's `read` has it
        if got.count == 0 || !goes_on(input, state) {
            break;
        }
    }
    (input, state)
}
