// The f64 card (rule Part of a curve; 02, ticket 11): a part of a curve in, a record of up to five f64 numerators over 1024^m out,
// by value. The card computes in f64; its contract, over bits, stands in crate `part`.
#![tactic(auto)]

ghost use Rattle.std.specs.Prelude.{◌≡◌, false, cond, ◌≤◌, ltb, pos, length, get_or};
ghost use Rattle.request.specs.units.Bounds.{beyond_path};
ghost use Rattle.request.specs.Refusal.{value_place};
ghost use Rattle.request.specs.refusals.Number.{number_of};
ghost use Rattle.floats.specs.Float.{float};
ghost use Rattle.part.specs.Part.{head_of, first_of, last_of};
ghost use Rattle.part.specs.Contract.{five, Carded};
ghost use Rattle.card.specs.Steps.{Lowered, Blossoms, Filled, Refuses, Answered};

use part::{Card, Part};
use request::Head;
use request::refusals::Refusal;
use request::units::PathNumber;

// The head of the request that a part is: N is 0 for a stay and 1 for a line.
#[tactic(auto, unfolding(part::specs::Part::head_of, part::specs::Part::path_degree))]
fn head_of(m: u32, part: Part) -> Head
    ensures { result ≡ head_of m part }
{
    let N = match part {
        Part::Stay(_) => 0,
        Part::Line(_, _) => 1,
    };
    Head {
        form: 1,
        first: m,
        second: 0,
        N,
    }
}

// Where a part begins and ends. A stay ends where it begins.
#[tactic(auto, unfolding(part::specs::Part::first_of, part::specs::Part::last_of))]
fn ends(part: Part) -> (f64, f64)
    ensures { (result.0 ≡ first_of part) × (result.1 ≡ last_of part) }
{
    match part {
        Part::Stay(u) => (u, u),
        Part::Line(u, v) => (u, v),
    }
}

// Control value k as an f64.
fn control(surface: &[i32], k: usize) -> f64
    ensures { result ≡ float (get_or surface.now k (pos 0)) }
{
    floats::of_travel(request::units::travel_at(surface, k))
}

#[tactic(auto, unfolding(part::specs::Contract::five))]
fn loaded(surface: &[i32]) -> [f64; 5]
    ensures { result ≡ five (λ i. float (get_or surface.now i (pos 0))) }
{
    [
        control(surface, 0),
        control(surface, 1),
        control(surface, 2),
        control(surface, 3),
        control(surface, 4),
    ]
}

// One argument makes a net one degree lower.
fn lower(net: [f64; 5], d: usize, u: f64) -> [f64; 5]
    requires { d ≤ 4 }
    ensures { Lowered net d u result }
{
    let mut out = net;
    for i in 0..d {
        out[i] = floats::step(net[i], net[i + 1], u);
    }
    out
}

// The argument to take where `left` are left: v for the last R of them.
fn argument(left: usize, R: usize, u: f64, v: f64) -> f64
    ensures { result ≡ cond (ltb R left) u v }
{
    if R < left { u } else { v }
}

// The blossom value: `left` arguments are still to be taken.
// kept: u and v apart, as `Blossoms` and `Filled` in specs/Steps.antt have them
fn blossom(net: [f64; 5], left: usize, R: usize, u: f64, v: f64) -> f64
    requires { left ≤ 4 }
    ensures { Blossoms net left R u v result }
{
    if left == 0 {
        return net[0];
    }
    let next = lower(net, left, argument(left, R, u, v));
    blossom(next, left - 1, R, u, v)
}

// The numerators, each one blossom value; plus zero past them.
fn filled(net: [f64; 5], m: usize, count: usize, u: f64, v: f64) -> [f64; 5]
    requires { (m ≤ 4) × (count ≤ 5) }
    ensures { Filled net m count u v result }
{
    let mut out = [0.0; 5];
    for R in 0..count {
        out[R] = blossom(net, m, R, u, v);
    }
    out
}

fn refused(reason: Refusal, place: usize) -> Card
    ensures { Refuses (number_of reason) place result }
{
    Card {
        number: reason.into(),
        place,
        count: 0,
        numerators: [0.0; 5],
    }
}

// The record of a part from x to y, both path numbers.
fn answered(surface: &[i32], m: usize, count: usize, x: PathNumber, y: PathNumber) -> Card
    requires { (m ≤ 4) × (count ≤ 5) × (value_place surface.now ≡ length surface.now) × (beyond_path x.0 ≡ false) × (beyond_path y.0 ≡ false) }
    ensures { Answered m surface.now count x.0 y.0 result }
{
    let net = loaded(surface);
    let u = floats::of_path(x);
    let v = floats::of_path(y);
    let numerators = filled(net, m, count, u, v);
    Card {
        number: 0,
        place: 0,
        count,
        numerators,
    }
}

// Answers a part of the curve of degree m whose control values are lent.
pub fn drive(m: u32, surface: &[i32], part: Part) -> Card
    ensures { Carded m surface.now part result }
{
    let head = head_of(m, part);
    if request::not_degree(head) {
        return refused(Refusal::Degree, 0);
    }
    if surface.len() != request::surface_count(head) {
        return refused(Refusal::Surface, 0);
    }
    let value = judge::value_place(surface);
    if value < surface.len() {
        return refused(Refusal::Value, value);
    }
    let (first, last) = ends(part);
    let x = floats::path_number(first);
    if request::units::beyond_path(x) {
        return refused(Refusal::Parameter, 0);
    }
    let y = floats::path_number(last);
    if request::units::beyond_path(y) {
        return refused(Refusal::Parameter, 1);
    }
    answered(surface, m as usize, judge::place_count(head), x, y)
}
