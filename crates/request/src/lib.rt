// 01's request (rule Forms and degrees) and what is answered to it (rule Refusals), and what follows from the head alone: KIND,
// DEGREE and the counts. The refusals, as one table, are definitions here; `judge`, a crate above, goes down the table.
#![tactic(auto)]

pub mod refusals;
pub mod units;

ghost use Rattle.std.specs.Prelude.{◌≡◌, ◌==◌, not, false};
ghost use Rattle.request.specs.Head.{degree, surface_count, path_count};
ghost use Rattle.request.specs.Cascade.{accepting, refused};
ghost use Rattle.request.specs.Refusal.{not_kind, not_degree};

// The greatest r and the greatest N, and what they ask for at most.
const MOST_DEGREE: u32 = 4;

const MOST_N: u32 = 6;

pub const MOST_POINTS: usize = 25;

pub const MOST_PATH_NUMBERS: usize = 21;

// What a request is besides its two arrays: the form, a first and a second degree, and the path's degree N. The form stays a
// number: it comes from C and from records and may be any, and KIND refuses all but 1, 2 and 3.
#[derive(Clone, Copy)]
pub struct Head {
    pub form: u32,
    pub first: u32,
    pub second: u32,
    pub N: u32,
}

// How many places each output array has: the high words and the low words of the numerators, and the rounded points.
#[derive(Clone, Copy)]
pub struct Rooms {
    pub high: usize,
    pub low: usize,
    pub points: usize,
}

// number: 0 for accepted, else the refusal's. place: the least bad index (VALUE, PARAMETER) or the least bad point's
// number (BALANCE), else 0. count: how many places of each output array are written. No `Result` of a `Refusal`: C and the records
// have the three numbers, and `answer` in specs/ and every theorem on it speak of them.
#[derive(Clone, Copy)]
pub struct Answer {
    pub number: u32,
    pub place: usize,
    pub count: usize,
}

impl Answer {
    // Accepted: so many places of each output array are written.
    #[tactic(auto, unfolding(crate::specs::Cascade::accepting))]
    pub fn accepted(count: usize) -> Answer
        ensures { result ≡ accepting count }
    {
        Answer {
            number: 0,
            place: 0,
            count,
        }
    }

    // Whether it is a refusal, whatever its number.
    pub fn is_refused(self) -> bool
        ensures { result ≡ not (self.number == 0) }
    {
        self.number != 0
    }
}

// The refusal of any number: that of a name is `Refusal::at`.
#[tactic(auto, unfolding(crate::specs::Cascade::refused))]
pub fn refusal(number: u32, place: usize) -> Answer
    ensures { result ≡ refused number place }
{
    Answer {
        number,
        place,
        count: 0,
    }
}

// 1 KIND
#[tactic(auto, unfolding(crate::specs::Refusal::not_kind))]
pub fn not_kind(head: Head) -> bool
    ensures { result ≡ not_kind head }
{
    !matches!(head.form, 1 | 2 | 3)
}

// 2 DEGREE. The greatest degrees are refused before they are added.
pub fn not_degree(head: Head) -> bool
    ensures { result ≡ not_degree head }
{
    if head.first > MOST_DEGREE || head.N > MOST_N {
        return true;
    }
    match head.form {
        2 => head.second > MOST_DEGREE - head.first,
        _ => head.second != 0,
    }
}

// r: the number of arguments that the blossom takes.
#[tactic(auto, unfolding(crate::specs::Head::degree, crate::specs::Head::by_form))]
pub fn degree(head: Head) -> u64
    ensures { result ≡ degree head }
{
    let first = u64::from(head.first);
    match head.form {
        2 => first + u64::from(head.second),
        _ => first,
    }
}

// How many control values the head asks for.
#[tactic(auto, unfolding(crate::specs::Head::surface_count, crate::specs::Head::by_form))]
pub fn surface_count(head: Head) -> usize
    requires { not_degree head ≡ false }
    ensures { result ≡ surface_count head }
{
    let first = head.first as usize;
    let second = head.second as usize;
    match head.form {
        1 => first + 1,
        2 => (first + 1) * (second + 1),
        _ => (first + 1) * (first + 2) / 2,
    }
}

// How many path numbers the head asks for.
#[tactic(auto, unfolding(crate::specs::Head::path_count, crate::specs::Head::numbers, crate::specs::Head::by_form))]
pub fn path_count(head: Head) -> usize
    requires { not_degree head ≡ false }
    ensures { result ≡ path_count head }
{
    let points = head.N as usize + 1;
    match head.form {
        1 => points,
        2 => 2 * points,
        _ => 3 * points,
    }
}
