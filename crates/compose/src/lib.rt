// The lean curve composer: the public entry (rule Forms and degrees; 01). A request is judged whole before anything is written; an
// accepted one has its exact numerators, as a high and a low word each, and its rounded points written to the three lent arrays.
#![tactic(auto)]

mod writing;

ghost use Rattle.std.specs.Prelude.{◌≡◌};
ghost use Rattle.request.specs.Request.{request_of};
ghost use Rattle.request.specs.Refusal.{answer};
ghost use Rattle.sums.specs.Contract.{Formed};
ghost use Rattle.compose.specs.Afterwards.{arrays, rooms_of, entries_of};
ghost use Rattle.compose.specs.Contract.{Composed};

use request::units::Age;
use request::{Answer, Head, Rooms};

// Of the entries that were formed, those that are reported: form 2 reports none.
fn reported(head: Head, formed: u64) -> u64
    requires { Formed head formed }
    ensures { result ≡ entries_of head }
{
    if head.form == 2 {
        return 0;
    }
    formed
}

// 01's answer (rule Refusals), and how many net entries were formed for it (rule Counting; 02, ticket 7): 0 for form 2 and for a refusal.
#[derive(Clone, Copy)]
pub struct Composition {
    pub answer: Answer,
    pub entries: u64,
}

// A refusal: nothing was formed for it.
fn refused(answer: Answer) -> Composition
    ensures { result ≡ record { answer = answer; entries = 0 } }
{
    Composition { answer, entries: 0 }
}

// The judge's answer, which asks of the three arrays their rooms alone.
fn judged(
    head: Head,
    age: Age,
    surface: &[i32],
    path: &[i32],
    high: &[i64],
    low: &[u64],
    points: &[i32],
) -> Answer
    ensures { result ≡ answer (request_of head surface.now path.now) age.0
        (rooms_of (arrays high.now low.now points.now)) }
{
    let rooms = Rooms {
        high: high.len(),
        low: low.len(),
        points: points.len(),
    };
    judge::judge(head, age, surface, path, rooms)
}

// Composes a surface and a path, on a tilt sample of the given age. The answer is a number, a place and a count: 0, 0, L+1
// where the request is accepted, and then the first L+1 places of the three arrays are written; else the refusal's number and
// place and count 0, and all three are as they were.
// kept: the C interface: three arrays are lent, and the clause names each.
pub fn compose(
    head: Head,
    age: Age,
    surface: &[i32],
    path: &[i32],
    high: &mut [i64],
    low: &mut [u64],
    points: &mut [i32],
) -> Composition
    ensures { Composed (request_of head surface.now path.now) age.0
        (arrays high.old low.old points.old) result
        (arrays high.new low.new points.new) }
{
    let answer = judged(head, age, surface, path, high, low, points);
    if answer.is_refused() {
        return refused(answer);
    }
    let mut sums = [0i64; 50];
    let formed = sums::numerators(head, surface, path, &mut sums);
    let entries = reported(head, formed);
    let r = request::degree(head) as usize;
    crate::writing::write_all(&sums, answer.count, r, high, low, points);
    Composition { answer, entries }
}
