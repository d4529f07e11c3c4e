// A composed net, summed: a ride's terms are put into a table once, its surface is loaded, and room `gather` sums over the
// non-decreasing runs of the terms, into places of two limbs.
#![tactic(auto)]

mod gather;
mod steps;

ghost use Rattle.std.specs.Prelude.{◌≡◌, cond, false, ◌||◌, [], ◌∷◌, ◌+◌, ◌*◌, ◌^◌, ◌≤◌, ◌<◌, pos, nat_abs, eqb, ltb, length, get_or, replicate};
ghost use Rattle.std.proofs.lemmas.List.Edits.{sets};
ghost use Rattle.limbs.specs.Limbs.{Gained};
ghost use Rattle.request.specs.Head.{numbers};
ghost use Rattle.request.specs.Refusal.{not_degree, value_place};
ghost use Rattle.net.specs.Sizes.{GoodPath, Composable};
ghost use Rattle.sums.specs.steps.Layout.{boxed};
ghost use Rattle.sums.specs.steps.Few.{in_three};
ghost use Rattle.sums.specs.gather.Table.{Inside, Even};
ghost use Rattle.sums.specs.gather.Owed.{of_group, owing, duty, Ready};
ghost use Rattle.sums.specs.gather.Formed.{Counted};
ghost use Rattle.sums.specs.Filled.{term_numbers, Filled};
ghost use Rattle.sums.specs.Loaded.{read_three, stacked, LoadedBox, LoadedTriangle};
ghost use Rattle.sums.specs.Contract.{places, Summed, Formed};

use crate::gather::Run;
use crate::steps::{Three, Two};
use request::Head;
use whole::Num;

// ---- the table of a ride

// How many numbers a path point has.
fn numbers(head: Head) -> usize
    ensures { (result ≡ numbers head) × (result ≤ 3) }
{
    match head.form {
        1 => 1,
        2 => 2,
        _ => 3,
    }
}

// The second number of point c, and 0 where a point has one.
fn beside(path: &[i32], per: usize, c: usize) -> u64
    requires { (per ≤ 3) × (c < 10) }
    ensures { result ≡ cond (ltb per 2) 0 (nat_abs (get_or path.now (per * c + 1) (pos 0))) }
{
    if per < 2 {
        return 0;
    }
    request::units::path_size_at(path, per * c + 1)
}

// Stores term c, of a ride or of a patch.
pub fn store_term(t: &mut [u32; 40], c: usize, key: u64, weight: u64, a: u64, b: u64)
    requires { (c < 10) × (key < 2 ^ 32) × (weight < 2 ^ 32) × (a ≤ 1024) × (b ≤ 1024) }
    ensures { t.new ≡ sets t.old (4 * c) (term_numbers key weight a b) }
{
    let k = 4 * c;
    t[k] = key as u32;
    t[k + 1] = weight as u32;
    t[k + 2] = a as u32;
    t[k + 3] = b as u32;
}

// The terms of a ride: point c weighs N over c, its key is its number.
fn fill(head: Head, path: &[i32], t: &mut [u32; 40])
    requires { (not_degree head ≡ false) × GoodPath head path.now × (length t.old ≡ 40) }
    ensures { Filled head path.now t.new }
{
    let n = head.N as usize;
    let per = numbers(head);
    for c in 0..n + 1 {
        let a = request::units::path_size_at(path, per * c);
        let b = beside(path, per, c);
        store_term(t, c, c as u64, pascal::weight(n, c), a, b);
    }
}

// ---- the surface

// Control value i.
fn travel(surface: &[i32], i: usize) -> Num
    ensures { result.0 ≡ get_or surface.now i (pos 0) }
{
    request::units::units_of(request::units::travel_at(surface, i))
}

// Control values a, b and c.
fn travels(surface: &[i32], a: usize, b: usize, c: usize) -> Three
    ensures { in_three result ≡ read_three surface.now a b c }
{
    let a = travel(surface, a);
    let b = travel(surface, b);
    let c = travel(surface, c);
    Three { a, b, c }
}

// A rectangle has nine numbers at most, in the request's own order.
// kept: what may not change: `triangle` is handed a slice and asks this of it, and the functions that it calls hand it on.
fn load_box(surface: &[i32]) -> [i64; 15]
    requires { value_place surface.now ≡ length surface.now }
    ensures { LoadedBox surface.now result }
{
    let p = travels(surface, 0, 1, 2);
    let q = travels(surface, 3, 4, 5);
    let r = travels(surface, 6, 7, 8);
    let none = crate::steps::none();
    crate::steps::net_of(p, q, r, none, none)
}

// A triangle of degree n, diagonal by diagonal: its rows begin at 0, n + 1, 2n + 1, 3n, and of degree 4 at 14.
fn load_tri(surface: &[i32], n: usize) -> [i64; 15]
    requires { (value_place surface.now ≡ length surface.now) × (1 < n) × (n ≤ 4) }
    ensures { LoadedTriangle surface.now n result }
{
    let two = 2 * n;
    let p = travels(surface, 0, 1, n + 1);
    let q = travels(surface, 2, n + 2, two + 1);
    let none = crate::steps::none();
    if n < 3 {
        return crate::steps::net_of(p, q, none, none, none);
    }
    let r = travels(surface, 3, n + 3, two + 2);
    let a = travel(surface, 3 * n);
    if n < 4 {
        return crate::steps::net_of(p, q, r, crate::steps::alone(a), none);
    }
    let b = travel(surface, 4);
    let c = travel(surface, 8);
    let last = travels(surface, 11, 13, 14);
    crate::steps::net_of(p, q, r, Three { a, b, c }, last)
}

// ---- the sum

// The whole sum of a rectangle, from no argument taken.
fn rectangle(
    t: &[u32; 40],
    count: usize,
    second: usize,
    surface: &[i32],
    r: usize,
    sums: &mut [i64],
) -> u64
    requires { (0 < r) × Ready t.now count 2 second r 0 (of_group second r) 0 1 sums.old
        × Inside t.now count × (value_place surface.now ≡ length surface.now) }
    ensures { Counted t.now count 1 second r 0 result
        × Gained sums.old sums.new
        (owing t.now count 2 second r 0 (of_group second r) 0 1 (boxed (second + 1) surface.now))
        (duty t.now count 2 second r 0 (of_group second r) 1) }
{
    let run = Run {
        from: 0,
        begun: crate::gather::of_group(second, r),
        s: 0,
        weight: 1,
    };
    if r == 1 {
        let net = Two {
            a: travel(surface, 0),
            b: travel(surface, 1),
        };
        return crate::gather::last_row(t, count, second, net, run, sums);
    }
    let net = load_box(surface);
    crate::gather::gather_row(t, count, second, &net, r, run, sums)
}

// And of a triangle, of form 3 or of a patch.
pub fn triangle(t: &[u32; 40], count: usize, surface: &[i32], r: usize, sums: &mut [i64]) -> u64
    requires { (0 < r) × Ready t.now count 0 0 r 0 r 0 1 sums.old × Even t.now count × (value_place surface.now ≡ length surface.now) }
    ensures { Counted t.now count 2 0 r 0 result
        × Gained sums.old sums.new
        (owing t.now count 0 0 r 0 r 0 1 (stacked r surface.now))
        (duty t.now count 0 0 r 0 r 1) }
{
    let run = Run {
        from: 0,
        begun: r,
        s: 0,
        weight: 1,
    };
    if r == 1 {
        let net = travels(surface, 0, 1, 2);
        return crate::gather::last_tri(t, count, net, run, sums);
    }
    let net = load_tri(surface, r);
    crate::gather::gather_tri(t, count, &net, r, run, sums)
}

// Forms 1 and 2.
fn flat(head: Head) -> bool
    ensures { result ≡ (eqb head.form 1 || eqb head.form 2) }
{
    head.form == 1 || head.form == 2
}

// The exact numerators (rule Composed net) of a request that 01 accepts, added to places that are 0: the entries that were formed for it.
pub fn numerators(head: Head, surface: &[i32], path: &[i32], sums: &mut [i64]) -> u64
    requires { Composable (record { head = head; surface = surface.now; path = path.now }) × (sums.old ≡ replicate (2 * places) (pos 0)) }
    ensures { Summed (record { head = head; surface = surface.now; path = path.now }) sums.new × Formed head result }
{
    let r = request::degree(head) as usize;
    if r == 0 {
        limbs::settle(sums, 0, 1, travel(surface, 0));
        return 0;
    }
    let count = head.N as usize + 1;
    let mut t = [0u32; 40];
    fill(head, path, &mut t);
    if flat(head) {
        return rectangle(&t, count, head.second as usize, surface, r, sums);
    }
    triangle(&t, count, surface, r, sums)
}
