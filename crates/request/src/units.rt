// The kinds of number of a ride, each a type of its own, so that one is never taken for another: a path number in 1/1024, a
// travel in 0.01 mm, and the age of the tilt sample in milliseconds. Their bounds, and how each is read.
ghost use Rattle.std.specs.Prelude.{◌≡◌, ◌≤◌, pos, nat_abs, get_or};
ghost use Rattle.request.specs.units.Bounds.{beyond_travel, beyond_path, most, stale};

use whole::Num;

// A place along the path's own numbers: 1024 is one.
#[derive(Clone, Copy)]
pub struct PathNumber(pub i32);

// How far the car is pushed sideways: 4096 is 40.96 mm.
#[derive(Clone, Copy)]
pub struct Travel(pub i32);

// How old the tilt sample of a ride is, in milliseconds: 0 to 65,535.
#[derive(Clone, Copy)]
pub struct Age(pub u16);

// Control value k of a surface, and no travel past its end. This and the next stay two, a line each: one for both would need a trait.
pub fn travel_at(surface: &[i32], k: usize) -> Travel
    ensures { result.0 ≡ get_or surface.now k (pos 0) }
{
    Travel(surface.get(k).copied().unwrap_or(0))
}

// Number k of a path, and 0 past its end.
pub fn path_number_at(path: &[i32], k: usize) -> PathNumber
    ensures { result.0 ≡ get_or path.now k (pos 0) }
{
    PathNumber(path.get(k).copied().unwrap_or(0))
}

// The travel as a whole number of 0.01 mm.
pub fn units_of(t: Travel) -> Num
    ensures { result.0 ≡ t.0 }
{
    Num(i64::from(t.0))
}

// The size of a path number, in 1/1024. A path number within its bounds is its size.
fn size_of(p: PathNumber) -> u64
    ensures { result ≡ nat_abs p.0 }
{
    u64::from(p.0.unsigned_abs())
}

#[tactic(auto, unfolding(crate::specs::units::Bounds::beyond_travel))]
pub fn beyond_travel(t: Travel) -> bool
    ensures { result ≡ beyond_travel t.0 }
{
    !(-4096..=4096).contains(&t.0)
}

#[tactic(auto, unfolding(crate::specs::units::Bounds::beyond_path))]
pub fn beyond_path(p: PathNumber) -> bool
    ensures { result ≡ beyond_path p.0 }
{
    !(0..=1024).contains(&p.0)
}

// The size of number k of a path.
pub fn path_size_at(path: &[i32], k: usize) -> u64
    ensures { result ≡ nat_abs (get_or path.now k (pos 0)) }
{
    size_of(path_number_at(path, k))
}

// The travel of a whole number of 0.01 mm.
pub fn travel_of(n: Num) -> Travel
    requires { nat_abs n.0 ≤ most }
    ensures { result.0 ≡ n.0 }
{
    Travel(n.0 as i32)
}

// Whether a tilt sample is too old to ride on.
#[tactic(auto, unfolding(crate::specs::units::Bounds::stale))]
pub fn is_stale(age: Age) -> bool
    ensures { result ≡ stale age.0 }
{
    250 < age.0
}
