// What one argument makes of a net. A net is 15 numbers by value, in the request's own order for forms 1 and 2, a rectangle, and
// by diagonals for form 3, a triangle (specs/Layout.antt). Two products at most for a number; nothing here is about rides.
ghost use Rattle.std.specs.Prelude.{◌≡◌, cond, [], ◌∷◌, ◌++◌, ℕ, ◌+◌, ◌*◌, ◌^◌, ◌≤◌, ◌<◌, pos, nat_abs, ◌-ℤ◌, ◌*ℤ◌, get_or};
ghost use Rattle.sums.specs.steps.Stepped.{between, among, Slid, Lowered, Small};
ghost use Rattle.sums.specs.steps.Few.{in_two, in_four, in_three, in_six};

use whole::Num;

// kept: the new form is no plainer: the numbers have names in the formulas below, where an array would have indices.
// The numbers of a net where few arguments are left, in the layout's order: of a rectangle where one is left and where two are,
// of a triangle likewise.
#[derive(Clone, Copy)]
pub struct Two {
    pub a: Num,
    pub b: Num,
}

#[derive(Clone, Copy)]
pub struct Four {
    pub a: Num,
    pub b: Num,
    pub c: Num,
    pub d: Num,
}

#[derive(Clone, Copy)]
pub struct Three {
    pub a: Num,
    pub b: Num,
    pub c: Num,
}

#[derive(Clone, Copy)]
pub struct Six {
    pub a: Num,
    pub b: Num,
    pub c: Num,
    pub d: Num,
    pub e: Num,
    pub f: Num,
}

// A number and two zeros.
pub fn alone(a: Num) -> Three
    ensures { in_three result ≡ a.0 ∷ pos 0 ∷ pos 0 ∷ [] }
{
    let b = Num(0);
    Three { a, b, c: b }
}

// Three zeros.
pub fn none() -> Three
    ensures { in_three result ≡ pos 0 ∷ pos 0 ∷ pos 0 ∷ [] }
{
    alone(Num(0))
}

// A net, three by three.
pub fn net_of(p: Three, q: Three, r: Three, s: Three, t: Three) -> [i64; 15]
    ensures { result ≡ in_three p ++ in_three q ++ in_three r ++ in_three s ++ in_three t }
{
    [
        p.a.0, p.b.0, p.c.0, q.a.0, q.b.0, q.c.0, r.a.0, r.b.0, r.c.0, s.a.0, s.b.0, s.c.0, t.a.0, t
            .b
            .0, t.c.0,
    ]
}

// A share of a number.
fn share(x: u64, a: Num) -> Num
    requires { (x ≤ 1024) × (1024 * nat_abs a.0 < 2 ^ 63) }
    ensures { (result.0 ≡ pos x *ℤ a.0) × (nat_abs result.0 ≡ x * nat_abs a.0) }
{
    whole::product(whole::plus(x), a)
}

// a less b.
// kept: the new form is no plainer: its contract bounds the difference, which a product asks for in `toward` and in `mix`.
fn less(a: Num, b: Num) -> Num
    requires { nat_abs a.0 + nat_abs b.0 < 2 ^ 63 }
    ensures { (result.0 ≡ a.0 -ℤ b.0) × (nat_abs result.0 ≤ nat_abs a.0 + nat_abs b.0) }
{
    Num(a.0 - b.0)
}

// s of 1024 of the way from p to q, times 1024: one product beside the shift.
// kept: the new form is no plainer: a share is read from the table as a number, and a type for it would be taken off again at each product.
pub fn toward(s: u64, p: Num, q: Num) -> Num
    requires { (s ≤ 1024) × (nat_abs p.0 ≤ 2 ^ 42) × (nat_abs q.0 ≤ 2 ^ 42) }
    ensures { result.0 ≡ between s p.0 q.0 }
{
    whole::sum(share(1024, p), share(s, less(q, p)))
}

// The same toward two numbers, x of r and y of q.
// kept: as `toward`.
pub fn mix(x: u64, y: u64, p: Num, q: Num, r: Num) -> Num
    requires { (x + y ≤ 1024) × (nat_abs p.0 ≤ 2 ^ 42) × (nat_abs q.0 ≤ 2 ^ 42) × (nat_abs r.0 ≤ 2 ^ 42) }
    ensures { result.0 ≡ among x y p.0 q.0 r.0 }
{
    whole::sum(toward(x, p, r), share(y, less(q, p)))
}

// Number k of the rectangle that s makes; gap is how far apart neighbours are.
// kept: the new form is no plainer: the bound falls with each argument (`entry_most`), so a type for nets would have it as a parameter.
fn slide(p: &[i64; 15], s: u64, gap: usize, k: usize) -> Num
    requires { (s ≤ 1024) × (gap < 15) × (k + gap < 15) × Small p.now (2 ^ 42) }
    ensures { result.0 ≡ between s (get_or p.now k (pos 0)) (get_or p.now (k + gap) (pos 0)) }
{
    toward(s, Num(p[k]), Num(p[k + gap]))
}

// A rectangle of `count` numbers, four or six.
// kept: the new form is no plainer: `gap` is worked out once a loop and handed to one of three functions.
pub fn slid(p: &[i64; 15], s: u64, gap: usize, count: usize) -> [i64; 15]
    requires { (s ≤ 1024) × (gap ≤ 5) × (count ≤ 6) × Small p.now (2 ^ 42) }
    ensures { Slid p.now s gap count result }
{
    let a = slide(p, s, gap, 0);
    let b = slide(p, s, gap, 1);
    let c = slide(p, s, gap, 2);
    let first = Three { a, b, c };
    let a = slide(p, s, gap, 3);
    let none = none();
    if count < 5 {
        return net_of(first, alone(a), none, none, none);
    }
    let b = slide(p, s, gap, 4);
    let c = slide(p, s, gap, 5);
    net_of(first, Three { a, b, c }, none, none, none)
}

// A rectangle of two numbers.
pub fn row_two(p: &[i64; 15], s: u64, gap: usize) -> Two
    requires { (s ≤ 1024) × (gap ≤ 5) × Small p.now (2 ^ 42) }
    ensures { Slid p.now s gap 2 (in_two result) }
{
    let a = slide(p, s, gap, 0);
    let b = slide(p, s, gap, 1);
    Two { a, b }
}

// Of three, and of four where it is two wide: no other number is formed.
// kept: the new form is no plainer: `wide` says how many numbers there are, as the clause has it.
pub fn row_four(p: &[i64; 15], s: u64, gap: usize, wide: bool) -> Four
    requires { (s ≤ 1024) × (gap ≤ 5) × Small p.now (2 ^ 42) }
    ensures { Slid p.now s gap (cond wide 4 3) (in_four result) }
{
    let a = slide(p, s, gap, 0);
    let b = slide(p, s, gap, 1);
    let c = slide(p, s, gap, 2);
    if wide {
        let d = slide(p, s, gap, 3);
        return Four { a, b, c, d };
    }
    Four { a, b, c, d: Num(0) }
}

// The two numbers that s makes of these.
// kept: the new form is no plainer: `wide` says which numbers are neighbours.
pub fn four_two(p: Four, wide: bool, s: u64) -> Two
    requires { (s ≤ 1024) × Small (in_four p) (2 ^ 42) }
    ensures { Slid (in_four p) s (cond wide 2 1) 2 (in_two result) }
{
    if wide {
        let a = toward(s, p.a, p.c);
        let b = toward(s, p.b, p.d);
        return Two { a, b };
    }
    let a = toward(s, p.a, p.b);
    let b = toward(s, p.b, p.c);
    Two { a, b }
}

// Number k of the triangle that x and y make; its neighbours stand at next and right after it.
fn tri(p: &[i64; 15], x: u64, y: u64, k: usize, next: usize) -> Num
    requires { (x + y ≤ 1024) × (k < 15) × (next < 14) × Small p.now (2 ^ 42) }
    ensures { result.0 ≡ among x y (get_or p.now k (pos 0))
        (get_or p.now next (pos 0)) (get_or p.now (next + 1) (pos 0)) }
{
    mix(x, y, Num(p[k]), Num(p[next]), Num(p[next + 1]))
}

// A triangle of ten numbers.
pub fn lowered(p: &[i64; 15], x: u64, y: u64) -> [i64; 15]
    requires { (x + y ≤ 1024) × Small p.now (2 ^ 42) }
    ensures { Lowered p.now x y 4 result }
{
    let a = tri_three(p, x, y);
    let d = tri(p, x, y, 3, 6);
    let e = tri(p, x, y, 4, 7);
    let f = tri(p, x, y, 5, 8);
    let g = tri(p, x, y, 6, 10);
    let h = tri(p, x, y, 7, 11);
    let i = tri(p, x, y, 8, 12);
    let j = tri(p, x, y, 9, 13);
    let b = Three { a: d, b: e, c: f };
    let c = Three { a: g, b: h, c: i };
    net_of(a, b, c, alone(j), none())
}

// A triangle of three numbers.
pub fn tri_three(p: &[i64; 15], x: u64, y: u64) -> Three
    requires { (x + y ≤ 1024) × Small p.now (2 ^ 42) }
    ensures { Lowered p.now x y 2 (in_three result) }
{
    let a = tri(p, x, y, 0, 1);
    let b = tri(p, x, y, 1, 3);
    let c = tri(p, x, y, 2, 4);
    Three { a, b, c }
}

// Of six.
pub fn tri_six(p: &[i64; 15], x: u64, y: u64) -> Six
    requires { (x + y ≤ 1024) × Small p.now (2 ^ 42) }
    ensures { Lowered p.now x y 3 (in_six result) }
{
    let a = tri(p, x, y, 0, 1);
    let b = tri(p, x, y, 1, 3);
    let c = tri(p, x, y, 2, 4);
    let d = tri(p, x, y, 3, 6);
    let e = tri(p, x, y, 4, 7);
    let f = tri(p, x, y, 5, 8);
    Six { a, b, c, d, e, f }
}

// The three numbers that x and y make of six.
pub fn six_three(p: Six, x: u64, y: u64) -> Three
    requires { (x + y ≤ 1024) × Small (in_six p) (2 ^ 42) }
    ensures { Lowered (in_six p) x y 2 (in_three result) }
{
    let a = mix(x, y, p.a, p.b, p.c);
    let b = mix(x, y, p.b, p.d, p.e);
    let c = mix(x, y, p.c, p.e, p.f);
    Three { a, b, c }
}
