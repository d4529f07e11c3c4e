// A request record opened, and judged by the door's own table: the record is in specs/Record.antt, the table in
// specs/Judgement.antt. Bytes past the end of a record count as 0, so that nothing is asked of a caller. Nothing is composed here.
#![tactic(auto)]

ghost use Rattle.std.specs.Prelude.{◌≡◌, false, ◌≤◌};
ghost use Rattle.request.specs.Refusal.{not_degree};
ghost use Rattle.judgement.specs.Record.{head_in, is_aged, aged_start, start_in, age_in, body_end};
ghost use Rattle.judgement.specs.Judgement.{not_frame, tested as tested_in};
ghost use Rattle.judgement.specs.Opening.{Read, Opens};

use request::refusals::Refusal;
use request::units::Age;
use request::{Answer, Head};

// A record's head, the age of its tilt sample, the byte at which its numbers begin, and the refusal by the door's own table:
// number 0 where none of its tests holds.
// kept: no `Option`, since `Opens`, the contract of `open_record`, says of `refusal` that it is `tested`
#[derive(Clone, Copy)]
pub struct Opened {
    pub head: Head,
    pub age: Age,
    pub from: usize,
    pub refusal: Answer,
}

// The kinds of a request, without and with the age of its tilt sample.
// kept: numbers, since what stands in a record is any word, and an enum would be read from it and written back for two tests
const REQUEST_KIND: u64 = 0x0001;

const AGED_KIND: u64 = 0x0002;

// Where a record's numbers begin, and where they do behind an age.
const START: usize = 8;

const AGED_START: usize = 10;

// 9 FRAME, before anything else.
#[tactic(auto, unfolding(crate::specs::Judgement::not_frame, crate::specs::Judgement::not_of_kind, crate::specs::Record::is_aged, wire::specs::Start::length_field, wire::specs::Start::kind_field))]
fn not_frame(request: &[u8]) -> bool
    ensures { result ≡ not_frame request.now }
{
    if request.len() < START || wire::word_at(request, 0) != request.len() as u64 {
        return true;
    }
    match wire::word_at(request, 2) {
        AGED_KIND => request.len() < AGED_START,
        kind => kind != REQUEST_KIND,
    }
}

#[tactic(auto, unfolding(crate::specs::Record::head_in))]
fn head_in(request: &[u8]) -> Head
    ensures { result ≡ head_in request.now }
{
    Head {
        form: wire::byte_at(request, 4) as u32,
        first: wire::byte_at(request, 5) as u32,
        second: wire::byte_at(request, 6) as u32,
        N: wire::byte_at(request, 7) as u32,
    }
}

// Whether a record carries an age.
#[tactic(auto, unfolding(crate::specs::Record::is_aged, wire::specs::Start::kind_field))]
fn is_aged(request: &[u8]) -> bool
    ensures { result ≡ is_aged request.now }
{
    wire::word_at(request, 2) == AGED_KIND
}

// Where the numbers of a request begin.
#[tactic(auto, unfolding(crate::specs::Record::start_in))]
fn start_in(request: &[u8]) -> usize
    ensures { result ≡ start_in request.now }
{
    if is_aged(request) { AGED_START } else { START }
}

// The age of a request's tilt sample; no age means old.
#[tactic(auto, unfolding(crate::specs::Record::age_by, crate::specs::Record::missing_age))]
fn age_in(request: &[u8]) -> Age
    ensures { result.0 ≡ age_in request.now }
{
    if is_aged(request) {
        Age(wire::word_at(request, START) as u16)
    } else {
        Age(u16::MAX)
    }
}

// How long the head says that a record is whose numbers begin at byte `from`.
fn body_end(from: usize, head: Head) -> usize
    requires { (from ≤ aged_start) × (not_degree head ≡ false) }
    ensures { result ≡ body_end from head }
{
    from + 2 * request::surface_count(head) + 2 * request::path_count(head)
}

// The order of judgement: FRAME, KIND, DEGREE, STALE and the body's FRAME.
#[tactic(auto, unfolding(crate::specs::Judgement::tested, crate::specs::Judgement::refusals_by, crate::specs::Judgement::not_body, request::specs::Cascade::first, request::specs::Cascade::decided, request::specs::Cascade::refused, request::specs::Cascade::accepting))]
fn tested(request: &[u8], head: Head, age: Age, from: usize) -> Answer
    requires { Read request.now head age.0 from }
    ensures { result ≡ tested_in request.now }
{
    if not_frame(request) {
        return Refusal::Frame.at(0);
    }
    if request::not_kind(head) {
        return Refusal::Kind.at(0);
    }
    if request::not_degree(head) {
        return Refusal::Degree.at(0);
    }
    if request::units::is_stale(age) {
        return Refusal::Stale.at(0);
    }
    if request.len() != body_end(from, head) {
        return Refusal::Frame.at(0);
    }
    Answer::accepted(0)
}

// Opens a record of any bytes. Inlined also where two call it: handed back through memory it nearly doubles what the door does on a record that it
// refuses (docs/LOOK-BACK.md, d5).
#[inline(always)]
pub fn open_record(request: &[u8]) -> Opened
    ensures { Opens request.now result }
{
    let head = head_in(request);
    let age = age_in(request);
    let from = start_in(request);
    Opened {
        head,
        age,
        from,
        refusal: tested(request, head, age, from),
    }
}
