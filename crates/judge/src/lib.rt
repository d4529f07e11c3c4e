// The nine refusals (rule Refusals; 01, and 02, ticket 3), tested in the stated order: `judge` answers a number, a place and a
// count for every request and writes nothing.
#![tactic(auto)]

mod places;

ghost use Rattle.std.specs.Prelude.{◌≡◌, false, ◌+◌, ◌≤◌};
ghost use Rattle.request.specs.Head.{by_form, longest};
ghost use Rattle.request.specs.Request.{request_of};
ghost use Rattle.request.specs.Cascade.{first, decided};
ghost use Rattle.request.specs.Refusal.{not_degree, not_room, value_place, accepted, answer};
ghost use Rattle.judge.specs.Places.{number_tests};

use request::refusals::Refusal;
use request::units::Age;
use request::{Answer, Head, Rooms};

// L + 1: how many places of each output array are written.
// kept: `not_degree head ≡ false` in five contracts here and in `request`, three of them public and named in docs/PROMISES.md
pub fn place_count(head: Head) -> usize
    requires { not_degree head ≡ false }
    ensures { result ≡ longest head + 1 }
{
    let r = request::degree(head) as usize;
    r * (head.N as usize) + 1
}

// The least index of a control value beyond its bounds, or the surface's length: of a surface, and of a composed net.
#[tactic(auto, unfolding(crate::specs::Places::Finds))]
pub fn value_place(surface: &[i32]) -> usize
    ensures { result ≡ value_place surface.now }
{
    places::bad_travel(surface).unwrap_or(surface.len())
}

// 5 ROOM
#[tactic(auto, unfolding(request::specs::Refusal::not_room))]
fn not_room(head: Head, rooms: Rooms) -> bool
    requires { not_degree head ≡ false }
    ensures { result ≡ not_room head rooms }
{
    let count = place_count(head);
    rooms.high < count || rooms.low < count || rooms.points < count
}

#[tactic(auto, unfolding(request::specs::Refusal::accepted, request::specs::Cascade::accepting))]
fn acceptance(head: Head) -> Answer
    requires { not_degree head ≡ false }
    ensures { result ≡ accepted head }
{
    Answer::accepted(place_count(head))
}

// VALUE, PARAMETER and BALANCE of the first `points` path points, of rides and of patches; where none of them holds, the last word.
#[tactic(auto, unfolding(request::specs::Cascade::first, request::specs::Cascade::decided))]
pub fn judge_numbers(surface: &[i32], path: &[i32], points: usize, last: Answer) -> Answer
    requires { points ≤ 10 }
    ensures { result ≡ decided (first (number_tests surface.now path.now points)) last }
{
    if let Some(k) = places::bad_travel(surface) {
        return Refusal::Value.at(k);
    }
    if let Some(k) = places::bad_path_number(path) {
        return Refusal::Parameter.at(k);
    }
    if let Some(c) = places::uneven_point(path, points) {
        return Refusal::Balance.at(c);
    }
    last
}

// How many path points are to be balanced: all of form 3, none of the others.
#[tactic(auto, unfolding(request::specs::Head::by_form))]
fn balanced(head: Head) -> usize
    requires { not_degree head ≡ false }
    ensures { (result ≡ by_form head 0 0 (head.N + 1)) × (result ≤ 10) }
{
    match head.form {
        1 | 2 => 0,
        _ => head.N as usize + 1,
    }
}

// The nine refusals in their order, each exactly on its condition, or the acceptance: 01's answer (rule Refusals) to a request
// whose output arrays have these rooms.
#[tactic(auto, unfolding(request::specs::Refusal::answer, request::specs::Refusal::refusals, request::specs::Cascade::first, request::specs::Cascade::decided, request::specs::Refusal::not_surface, request::specs::Refusal::not_path))]
pub fn judge(head: Head, age: Age, surface: &[i32], path: &[i32], rooms: Rooms) -> Answer
    ensures { result ≡ answer (request_of head surface.now path.now) age.0 rooms }
{
    if request::not_kind(head) {
        return Refusal::Kind.at(0);
    }
    if request::not_degree(head) {
        return Refusal::Degree.at(0);
    }
    let values = request::surface_count(head);
    let numbers = request::path_count(head);
    if request::units::is_stale(age) {
        return Refusal::Stale.at(0);
    }
    if surface.len() != values {
        return Refusal::Surface.at(0);
    }
    if path.len() != numbers {
        return Refusal::Path.at(0);
    }
    if not_room(head, rooms) {
        return Refusal::Room.at(0);
    }
    judge_numbers(surface, path, balanced(head), acceptance(head))
}
