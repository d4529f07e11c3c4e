// Whole numbers as f64, for the drive card (rule Part of a curve; 02, ticket 11): which path number an f64 is, travels and path
// numbers turned into f64, and one blossom step, which is exact on them.
#![tactic(auto)]

ghost use Rattle.std.specs.Prelude.{◌≡◌, pos};
ghost use Rattle.std.specs.Float.{binary64};
ghost use Rattle.std.specs.Float.Ieee.{sub};
ghost use Rattle.request.specs.units.Bounds.{path_one};
ghost use Rattle.floats.specs.Float.{float};
ghost use Rattle.floats.specs.Path.{path_of};
ghost use Rattle.floats.specs.Step.{Stepped};

use request::units::{PathNumber, Travel};

// What stands for an f64 that is no path number: it is beyond them all, so that PARAMETER refuses it.
// kept: no `Option`, since `path_of` in specs/Path.antt, of which the contract of `path_number` speaks, has this number for it
fn none() -> PathNumber
    ensures { result.0 ≡ pos 1025 }
{
    PathNumber(1025)
}

// The path number that x is. A NaN is not at least 0; minus zero is.
pub fn path_number(x: f64) -> PathNumber
    ensures { result.0 ≡ pos (path_of x) }
{
    if !(0.0 <= x) {
        return none();
    }
    if 1024.0 < x {
        return none();
    }
    let k = std::num::truncating_f64_to_u64(x);
    if std::num::nearest_u64_to_f64(k) != x {
        return none();
    }
    PathNumber(k as i32)
}

#[tactic(auto, unfolding(crate::specs::Float::float))]
pub fn of_path(p: PathNumber) -> f64
    ensures { result ≡ float p.0 }
{
    f64::from(p.0)
}

#[tactic(auto, unfolding(crate::specs::Float::float))]
pub fn of_travel(t: Travel) -> f64
    ensures { result ≡ float t.0 }
{
    f64::from(t.0)
}

// What u leaves of 1,024.
fn rest(u: f64) -> f64
    ensures { result ≡ sub binary64 (float (pos path_one)) u }
{
    1024.0 - u
}

// One argument u of the step from a to b.
pub fn step(a: f64, b: f64, u: f64) -> f64
    ensures { Stepped a b u result }
{
    rest(u) * a + u * b
}
