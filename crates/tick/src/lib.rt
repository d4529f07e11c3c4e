// The curve of a composed net, read at a tick (rule Reading at a tick; 02, ticket 9): de Casteljau's steps on values of 1/65,536
// of a unit, each rounded. A net and a moment are judged first; whatever they are, there is an answer.
#![tactic(auto)]

ghost use Rattle.std.specs.Prelude.{◌≡◌, map, ◌+◌, ◌*◌, ◌/◌, ◌≤◌, ◌<◌, pos, nat_abs, length, get_or, set, take};
ghost use Rattle.whole.specs.Round.{on_side_of, nearest};
ghost use Rattle.request.specs.Refusal.{value_place};
ghost use Rattle.tick.specs.Reading.{carried, between, lower, reading};
ghost use Rattle.tick.specs.Told.{not_net, judged, told};
ghost use Rattle.tick.specs.Carried.{carried_most, Carried};

use request::Answer;
use request::refusals::Refusal;
use whole::Num;

// A moment of a ride: 1024 is its end.
#[derive(Clone, Copy)]
pub struct Moment(pub u32);

// number: 0 for accepted, else the refusal's. place: the least index of a point beyond its bounds (VALUE), else 0. reading: in
// 1/65,536 of a unit, 0 for a refusal.
// kept: the C interface has the three numbers, and `told` in specs/Told.antt speaks of each
#[derive(Clone, Copy)]
pub struct Tick {
    pub number: u32,
    pub place: usize,
    pub reading: i64,
}

// Point i as it is carried.
// kept: `value_place points ≡ length points` in three private contracts: a struct for it would only wrap the slice
fn carried_at(points: &[i32], i: usize) -> Num
    requires { value_place points.now ≡ length points.now }
    ensures { (result.0 ≡ carried (get_or points.now i (pos 0))) × (nat_abs result.0 ≤ carried_most) }
{
    whole::product(
        whole::plus(65536),
        request::units::units_of(request::units::travel_at(points, i)),
    )
}

fn load(points: &[i32], values: &mut [i64; 25])
    requires { (length points.now ≤ 25) × (value_place points.now ≡ length points.now) × Carried values.old }
    ensures { (take (length points.now) values.new ≡ map carried points.now) × Carried values.new }
{
    for i in 0..points.len() {
        values[i] = carried_at(points, i).0;
    }
}

// Half of 1024, on n's side of zero.
fn half(n: Num) -> Num
    ensures { result.0 ≡ on_side_of n.0 512 }
{
    if whole::negative(n) {
        whole::minus(512)
    } else {
        whole::plus(512)
    }
}

// n/1024, rounded. Half is added on n's side and the rest cut off toward zero, so that no branch waits for what is left.
fn rounded(n: Num) -> Num
    requires { nat_abs n.0 ≤ 1024 * carried_most }
    ensures { result.0 ≡ nearest n.0 1024 }
{
    Num(whole::sum(n, half(n)).0 / 1024)
}

// Between two neighbouring values, at k/1024.
// kept: `k ≤ 1024` in three private contracts: `Moment` takes any number, and a second type for one call would be longer
fn between(k: u64, a: Num, b: Num) -> Num
    requires { (k ≤ 1024) × (nat_abs a.0 ≤ carried_most) × (nat_abs b.0 ≤ carried_most) }
    ensures { (result.0 ≡ between k a.0 b.0) × (nat_abs result.0 ≤ carried_most) }
{
    let near = whole::product(whole::plus(1024 - k), a);
    let far = whole::product(whole::plus(k), b);
    rounded(whole::sum(near, far))
}

// One step: `count` values out of the first count + 1.
fn lower(values: &mut [i64; 25], count: usize, k: u64)
    requires { (count < 25) × (k ≤ 1024) × Carried values.old }
    ensures { (take count values.new ≡ lower k (take (count + 1) values.old)) × Carried values.new }
{
    for i in 0..count {
        values[i] = between(k, Num(values[i]), Num(values[i + 1])).0;
    }
}

// The reading of a net that is one, at a moment that is one.
fn curve(points: &[i32], k: u64) -> Num
    requires { (0 < length points.now) × (length points.now ≤ 25) × (value_place points.now ≡ length points.now) × (k ≤ 1024) }
    ensures { result.0 ≡ reading points.now k }
{
    let mut values = [0i64; 25];
    load(points, &mut values);
    for left in (1..points.len()).rev() {
        lower(&mut values, left, k);
    }
    Num(values[0])
}

// 3 SURFACE
#[tactic(auto, unfolding(crate::specs::Told::not_net))]
fn not_net(points: &[i32]) -> bool
    ensures { result ≡ not_net points.now }
{
    !(1..=25).contains(&points.len())
}

// The three refusals in their order, or the acceptance.
#[tactic(auto, unfolding(crate::specs::Told::judged, crate::specs::Told::refusals, crate::specs::Told::not_point, crate::specs::Told::not_moment, request::specs::Cascade::first, request::specs::Cascade::decided, request::specs::Cascade::accepting))]
fn judge(points: &[i32], k: Moment) -> Answer
    ensures { result ≡ judged points.now k.0 }
{
    if not_net(points) {
        return Refusal::Surface.at(0);
    }
    let value = judge::value_place(points);
    if value < points.len() {
        return Refusal::Value.at(value);
    }
    if k.0 > 1024 {
        return Refusal::Moment.at(0);
    }
    Answer::accepted(1)
}

// Reads the curve of a net of points at a moment.
pub fn read(points: &[i32], k: Moment) -> Tick
    ensures { result ≡ told points.now k.0 }
{
    let answer = judge(points, k);
    if answer.is_refused() {
        return Tick {
            number: answer.number,
            place: answer.place,
            reading: 0,
        };
    }
    Tick {
        number: 0,
        place: 0,
        reading: curve(points, u64::from(k.0)).0,
    }
}
