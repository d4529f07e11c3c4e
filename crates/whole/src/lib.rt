// Whole numbers that fit 64 bits: their sum, their product and rounding. What they mean is in specs/, the laws are in
// proofs/. Callers see plain whole numbers, since the bits of a number stay inside these functions. Assumes nothing.
#![tactic(auto)]

ghost use Rattle.std.specs.Prelude.{◌≡◌, ◌+◌, ◌*◌, ◌-◌, ◌/◌, ◌%◌, ◌^◌, ◌≤◌, ◌<◌, not, pos, neg_ℤ, nat_abs, ◌+ℤ◌, ◌*ℤ◌};
ghost use Rattle.std.specs.Int.Signed.{mag, non_neg};
ghost use Rattle.whole.specs.Round.{on_side_of, nearest, Divided};

// A whole number that fits 64 bits.
#[derive(Clone, Copy)]
pub struct Num(pub i64);

// kept: what may not change: public, with these clauses, and the crates above hand it Nums.
pub fn sum(a: Num, b: Num) -> Num
    requires { nat_abs a.0 + nat_abs b.0 < 2 ^ 63 }
    ensures { (result.0 ≡ a.0 +ℤ b.0) × (nat_abs result.0 ≤ nat_abs a.0 + nat_abs b.0) }
{
    Num(a.0 + b.0)
}

pub fn product(a: Num, b: Num) -> Num
    requires { nat_abs a.0 * nat_abs b.0 < 2 ^ 63 }
    ensures { (result.0 ≡ a.0 *ℤ b.0) × (nat_abs result.0 ≡ nat_abs a.0 * nat_abs b.0) }
{
    Num(a.0 * b.0)
}

// ---- a number by its sign and its size

// kept: what may not change: public, with this clause.
pub fn negative(n: Num) -> bool
    ensures { result ≡ not (non_neg n.0) }
{
    n.0.is_negative()
}

// kept: what may not change: public, with this clause.
pub fn size(n: Num) -> u64
    ensures { (result ≡ nat_abs n.0) × (mag n.0 < 2 ^ 63) }
{
    n.0.unsigned_abs()
}

pub fn plus(x: u64) -> Num
    requires { x < 2 ^ 63 }
    ensures { result.0 ≡ pos x }
{
    Num(x as i64)
}

pub fn minus(x: u64) -> Num
    requires { x ≤ 2 ^ 63 }
    ensures { result.0 ≡ neg_ℤ (pos x) }
{
    Num(0i64.wrapping_sub_unsigned(x))
}

// ---- rounding

// The greatest signed number of 64 bits.
const LARGEST: u64 = i64::MAX as u64;

// n/d, cut off toward zero.
fn quotient(n: Num, d: u64) -> Num
    requires { (0 < d) × (d < 2 ^ 63) }
    ensures { result.0 ≡ on_side_of n.0 (nat_abs n.0 / d) }
{
    Num(n.0 / d as i64)
}

// What the quotient leaves of n, from the product and not by dividing again: on n's side of zero.
fn left(n: Num, d: u64, q: Num) -> Num
    requires { (d < 2 ^ 63) × (q.0 ≡ on_side_of n.0 (nat_abs n.0 / d)) }
    ensures { result.0 ≡ on_side_of n.0 (nat_abs n.0 % d) }
{
    Num(n.0 - q.0 * d as i64)
}

// From q so many further from zero, on n's side.
fn further(q: Num, n: Num, up: u64) -> Num
    requires { (q.0 ≡ on_side_of n.0 (nat_abs q.0)) × (nat_abs q.0 + up ≤ nat_abs n.0) × (up ≤ 1) }
    ensures { result.0 ≡ on_side_of n.0 (nat_abs q.0 + up) }
{
    if n.0 < 0 {
        Num(q.0 - up as i64)
    } else {
        Num(q.0 + up as i64)
    }
}

// One more, where m is at least half of d. Nothing overflows, since m is compared with what it lacks to d.
// kept: the new form is no plainer: its contract has both outcomes of the test, so that `settled` is proved for both at once.
fn more(d: u64, m: u64) -> u64
    requires { m ≤ d }
    ensures { (d - m ≤ m → result ≡ 1) × (m < d - m → result ≡ 0) × (result ≤ 1) }
{
    u64::from(d - m <= m)
}

// The rounded point of n/d by the quotient q and the size m of what it leaves. What decides is a number and no branch, since
// nobody can foresee it.
fn settled(n: Num, d: u64, q: Num, m: u64) -> Num
    requires { Divided n.0 d q.0 m }
    ensures { result.0 ≡ nearest n.0 d }
{
    further(q, n, more(d, m))
}

// The rounded point of n/d: the nearest whole number, a half going away from zero. 0 where d is 0. A denominator that is no
// signed number is at least as large as any numerator, so that all of the numerator is left.
pub fn nearest(n: Num, d: u64) -> Num
    ensures { result.0 ≡ nearest n.0 d }
{
    // kept: what may not change: `nearest` of specs/Round.antt is 0 there.
    if d == 0 {
        return Num(0);
    }
    if d > LARGEST {
        return settled(n, d, Num(0), size(n));
    }
    let q = quotient(n, d);
    settled(n, d, q, size(left(n, d, q)))
}
