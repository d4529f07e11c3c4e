// Sums of weighed values beyond 64 bits. A place of a lent array is two signed limbs, worth high·2^32 + low. One budget of
// weight holds for all places.
#![tactic(auto)]

ghost use Rattle.std.specs.Prelude.{◌≡◌, ◌+◌, ◌*◌, ◌^◌, ◌≤◌, ◌<◌, pos, neg_ℤ, nat_abs, ◌+ℤ◌, ◌*ℤ◌, length, get_or, set};
ghost use Rattle.std.specs.Int.Signed.{shr_z};
ghost use Rattle.limbs.specs.Limbs.{Room, Gained, only};

use whole::Num;

const BASE: i64 = 1 << 32;

// Adds a weighed number to limb k.
fn add(sums: &mut [i64], k: usize, w: u64, x: i64)
    requires { (k < length sums.old) × (w < 2 ^ 63) × (nat_abs (get_or sums.old k (pos 0)) + w * nat_abs x < 2 ^ 63) }
    ensures { sums.new ≡ set sums.old k (get_or sums.old k (pos 0) +ℤ pos w *ℤ x) }
{
    sums[k] += w as i64 * x;
}

// What is left of a value where `high` is taken at 2^32.
fn lower(v: i64, high: i64) -> i64
    requires { (nat_abs v ≤ 2 ^ 52) × (nat_abs high ≤ 2 ^ 24) }
    ensures { result ≡ v +ℤ high *ℤ neg_ℤ (pos (2 ^ 32)) }
{
    v - high * BASE
}

// Adds a weighed value to place s.
pub fn settle(sums: &mut [i64], s: usize, w: u64, v: Num)
    requires { (2 * s + 1 < length sums.old) × (nat_abs v.0 ≤ 2 ^ 52) × Room sums.old w }
    ensures { Gained sums.old sums.new (only s (pos w *ℤ v.0)) w }
{
    let high = v.0 >> 32;
    add(sums, 2 * s, w, high);
    add(sums, 2 * s + 1, w, lower(v.0, high));
}
