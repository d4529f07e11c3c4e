// The sum over the non-decreasing runs of a table's terms: each set of arguments is formed once and weighed by its arrangements. A
// rectangle, forms 1 and 2, and a triangle have functions of their own; each answers how many net entries it formed. Nothing here
// is about rides: weights, keys and path numbers come from the table.
ghost use Rattle.std.specs.Prelude.{◌≡◌, cond, ◌+◌, ◌*◌, ◌-◌, ◌^◌, ◌≤◌, ◌<◌, get_or};
ghost use Rattle.whole.specs.Choose.{choose};
ghost use Rattle.limbs.specs.Limbs.{Gained};
ghost use Rattle.net.specs.runs.Tree.{size};
ghost use Rattle.sums.specs.steps.Layout.{boxed, held};
ghost use Rattle.sums.specs.steps.Stepped.{Small, entry_most};
ghost use Rattle.sums.specs.steps.Few.{in_two, in_four, in_three, in_six};
ghost use Rattle.sums.specs.gather.Table.{key_at, weight_at, share_at, Inside, Even};
ghost use Rattle.sums.specs.gather.Owed.{group_at, of_group, gap_at, owing, duty, Ready};
ghost use Rattle.sums.specs.gather.Formed.{Counted};

use crate::steps::{Four, Six, Three, Two};

// A run of terms that is open: it goes on from term `from`, has been open since `begun` arguments of its group were left, and what is
// read for it is added at place s and what its terms' keys make, weighed by `weight`.
#[derive(Clone, Copy)]
pub struct Run {
    pub from: usize,
    pub begun: usize,
    pub s: usize,
    pub weight: u64,
}

// ---- the table

// The number of term c at i: its key at 0, its weight at 1, its path numbers at 2 and 3.
// kept: the new form is no plainer: c counts a loop below `count`, and a type for what is below 10 would be made anew at each turn.
fn share(t: &[u32; 40], c: usize, i: usize) -> u64
    requires { (c < 10) × (i ≤ 3) }
    ensures { result ≡ share_at t.now c i }
{
    u64::from(t[4 * c + i])
}

// Where term c takes a sum of place s.
fn placed(t: &[u32; 40], c: usize, s: usize) -> usize
    requires { (c < 10) × (s + key_at t.now c < 2 ^ 64) }
    ensures { result ≡ s + key_at t.now c }
{
    s + share(t, c, 0) as usize
}

// What a weight is with term c's.
fn weighed(t: &[u32; 40], c: usize, w: u64) -> u64
    requires { (c < 10) × (w * weight_at t.now c < 2 ^ 64) }
    ensures { result ≡ w * weight_at t.now c }
{
    w * share(t, c, 1)
}

// ---- the groups

// Which group an argument is of, and where its number stands.
fn group(second: usize, left: usize) -> usize
    ensures { (result ≡ group_at 2 second left) × (result ≤ 3) }
{
    if second < left { 2 } else { 3 }
}

// How many arguments of its group are left, where `left` are left in all.
pub fn of_group(second: usize, left: usize) -> usize
    ensures { result ≡ of_group second left }
{
    if left <= second {
        return left;
    }
    left - second
}

fn gap(second: usize, left: usize) -> usize
    requires { left ≤ 4 }
    ensures { (result ≡ gap_at second left) × (result ≤ 4) }
{
    if second < left { second + 1 } else { 1 }
}

// One of two numbers.
// kept: the new form is no plainer: behind an `if` in its place each goal of the calls that follow would have two cases.
fn chosen(first: bool, a: usize, b: usize) -> usize
    ensures { result ≡ cond first a b }
{
    if first { a } else { b }
}

// In how many ways `left` of the arguments that were left when a run began can be the ones that it leaves: (begun over left),
// of four at most.
fn arrangements(begun: usize, left: usize) -> u64
    requires { (begun ≤ 4) × (left ≤ begun) }
    ensures { (result ≡ choose begun left) × (result ≤ 6) }
{
    if left == 0 || left == begun {
        return 1;
    }
    if left == 1 || left + 1 == begun {
        return begun as u64;
    }
    6
}

// ---- rectangles

// The last argument: no net is formed.
// kept: the new form is no plainer: a struct of a table and its count would have to be two, of numbers that are each within 1024 and of such as are so
// in pairs (`Inside` and `Even`).
pub fn last_row(
    t: &[u32; 40],
    count: usize,
    second: usize,
    net: Two,
    run: Run,
    sums: &mut [i64],
) -> u64
    requires { Ready t.now count 2 second 1 run.from run.begun run.s run.weight sums.old × Inside t.now count × Small (in_two net) (entry_most 1) }
    ensures { Counted t.now count 1 second 1 run.from result
        × Gained sums.old sums.new
        (owing t.now count 2 second 1 run.from run.begun run.s run.weight (boxed (second + 1) (in_two net)))
        (duty t.now count 2 second 1 run.from run.begun run.weight) }
{
    let g = group(second, 1);
    let closed = run.weight * run.begun as u64;
    let mut w = run.weight;
    for c in run.from..count {
        let heavy = weighed(t, c, w);
        let value = crate::steps::toward(share(t, c, g), net.a, net.b);
        limbs::settle(sums, placed(t, c, run.s), heavy, value);
        w = closed;
    }
    (count - run.from) as u64
}

// The last two.
fn pair_row(
    t: &[u32; 40],
    count: usize,
    second: usize,
    net: Four,
    run: Run,
    sums: &mut [i64],
) -> u64
    requires { Ready t.now count 2 second 2 run.from run.begun run.s run.weight sums.old × Inside t.now count × Small (in_four net) (entry_most 2) }
    ensures { Counted t.now count 1 second 2 run.from result
        × Gained sums.old sums.new
        (owing t.now count 2 second 2 run.from run.begun run.s run.weight (boxed (second + 1) (in_four net)))
        (duty t.now count 2 second 2 run.from run.begun run.weight) }
{
    let turn = 1 == second;
    let g = group(second, 2);
    let here = of_group(second, 2);
    let closed = run.weight * arrangements(run.begun, here);
    let mut b = run.begun;
    let mut w = run.weight;
    let mut n: u64 = 0;
    for c in run.from..count {
        let q = crate::steps::four_two(net, turn, share(t, c, g));
        let onward = chosen(turn, 0, c);
        let opened = chosen(turn, second, b);
        let place = placed(t, c, run.s);
        let v = weighed(t, c, w);
        let next = Run {
            from: onward,
            begun: opened,
            s: place,
            weight: v,
        };
        let m = last_row(t, count, second, q, next, sums);
        n += 2 + m;
        w = closed;
        b = here;
    }
    n
}

// The `left` arguments that are still to be taken, two at least: the run of `from` has been open since `begun` of its group were
// left. Where the arguments of the first group are used up, the run begins anew.
pub fn gather_row(
    t: &[u32; 40],
    count: usize,
    second: usize,
    net: &[i64; 15],
    left: usize,
    run: Run,
    sums: &mut [i64],
) -> u64
    requires { (1 < left) × Ready t.now count 2 second left run.from run.begun run.s run.weight sums.old × Inside t.now count × Small net.now (entry_most left) }
    ensures { Counted t.now count 1 second left run.from result
        × Gained sums.old sums.new
        (owing t.now count 2 second left run.from run.begun run.s run.weight (boxed (second + 1) net.now))
        (duty t.now count 2 second left run.from run.begun run.weight) }
{
    let turn = left - 1 == second;
    let g = group(second, left);
    let here = of_group(second, left);
    let apart = gap(second, left);
    let closed = run.weight * arrangements(run.begun, here);
    let mut b = run.begun;
    let mut w = run.weight;
    let mut n: u64 = 0;
    for c in run.from..count {
        let u = share(t, c, g);
        let start = chosen(turn, 0, c);
        let began = chosen(turn, second, b);
        let place = placed(t, c, run.s);
        let v = weighed(t, c, w);
        let next = Run {
            from: start,
            begun: began,
            s: place,
            weight: v,
        };
        let m = if left == 3 {
            let q = crate::steps::row_four(net, u, apart, second == 1);
            pair_row(t, count, second, q, next, sums)
        } else if left == 2 {
            let q = crate::steps::row_two(net, u, apart);
            last_row(t, count, second, q, next, sums)
        } else {
            let q = crate::steps::slid(net, u, apart, here * apart);
            gather_row(t, count, second, &q, left - 1, next, sums)
        };
        n += left as u64 + m;
        w = closed;
        b = here;
    }
    n
}

// ---- triangles, which have one group
//
// kept: the new form is no plainer: one function for rows and triangles needs a trait of nets with the step, the numbers it reads, their bound, the
// groups and the count as members with laws, for a loop of six lines. What both loops keep is stated once, in proofs/gather (Turn, Gathering).

// The entries of a triangle of degree d, three at most.
fn triangle(d: usize) -> u64
    requires { d ≤ 3 }
    ensures { (result ≡ size 2 d) × (result ≤ 10) }
{
    match d {
        3 => 10,
        2 => 6,
        1 => 3,
        _ => 1,
    }
}

// kept: as `last_row`.
pub fn last_tri(t: &[u32; 40], count: usize, net: Three, run: Run, sums: &mut [i64]) -> u64
    requires { Ready t.now count 0 0 1 run.from run.begun run.s run.weight sums.old × Even t.now count × Small (in_three net) (entry_most 1) }
    ensures { Counted t.now count 2 0 1 run.from result
        × Gained sums.old sums.new
        (owing t.now count 0 0 1 run.from run.begun run.s run.weight (held (in_three net)))
        (duty t.now count 0 0 1 run.from run.begun run.weight) }
{
    let closed = run.weight * run.begun as u64;
    let mut so_far = run.weight;
    for c in run.from..count {
        let v = weighed(t, c, so_far);
        let value = crate::steps::mix(share(t, c, 2), share(t, c, 3), net.a, net.b, net.c);
        limbs::settle(sums, placed(t, c, run.s), v, value);
        so_far = closed;
    }
    (count - run.from) as u64
}

fn pair_tri(t: &[u32; 40], count: usize, net: Six, run: Run, sums: &mut [i64]) -> u64
    requires { Ready t.now count 0 0 2 run.from run.begun run.s run.weight sums.old × Even t.now count × Small (in_six net) (entry_most 2) }
    ensures { Counted t.now count 2 0 2 run.from result
        × Gained sums.old sums.new
        (owing t.now count 0 0 2 run.from run.begun run.s run.weight (held (in_six net)))
        (duty t.now count 0 0 2 run.from run.begun run.weight) }
{
    let closed = run.weight * arrangements(run.begun, 2);
    let mut b = run.begun;
    let mut w = run.weight;
    let mut n: u64 = 0;
    for c in run.from..count {
        let q = crate::steps::six_three(net, share(t, c, 2), share(t, c, 3));
        let place = placed(t, c, run.s);
        let v = weighed(t, c, w);
        let next = Run {
            from: c,
            begun: b,
            s: place,
            weight: v,
        };
        let m = last_tri(t, count, q, next, sums);
        n += 3 + m;
        w = closed;
        b = 2;
    }
    n
}

pub fn gather_tri(
    t: &[u32; 40],
    count: usize,
    net: &[i64; 15],
    left: usize,
    run: Run,
    sums: &mut [i64],
) -> u64
    requires { (1 < left) × Ready t.now count 0 0 left run.from run.begun run.s run.weight sums.old × Even t.now count × Small net.now (entry_most left) }
    ensures { Counted t.now count 2 0 left run.from result
        × Gained sums.old sums.new
        (owing t.now count 0 0 left run.from run.begun run.s run.weight (held net.now))
        (duty t.now count 0 0 left run.from run.begun run.weight) }
{
    let closed = run.weight * arrangements(run.begun, left);
    let formed = triangle(left - 1);
    let mut b = run.begun;
    let mut w = run.weight;
    let mut n: u64 = 0;
    for c in run.from..count {
        let x = share(t, c, 2);
        let y = share(t, c, 3);
        let place = placed(t, c, run.s);
        let v = weighed(t, c, w);
        let next = Run {
            from: c,
            begun: b,
            s: place,
            weight: v,
        };
        let m = if left == 3 {
            let q = crate::steps::tri_six(net, x, y);
            pair_tri(t, count, q, next, sums)
        } else if left == 2 {
            let q = crate::steps::tri_three(net, x, y);
            last_tri(t, count, q, next, sums)
        } else {
            let q = crate::steps::lowered(net, x, y);
            gather_tri(t, count, &q, left - 1, next, sums)
        };
        n += formed + m;
        w = closed;
        b = left;
    }
    n
}
