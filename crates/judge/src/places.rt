// Where a request's numbers are at fault: the least index of a control value or of a path number beyond its bounds, and the
// least number of a path point that is not balanced.
ghost use Rattle.std.specs.Prelude.{◌≡◌, ◌≤◌, ◌<◌, pos, length, get_or};
ghost use Rattle.request.specs.Refusal.{least, uneven, value_place, parameter_place};
ghost use Rattle.judge.specs.Places.{Finds};

use request::units;

// The least index of a control value beyond its bounds.
pub fn bad_travel(surface: &[i32]) -> Option<usize>
    ensures { Finds (length surface.now) (value_place surface.now) result }
{
    (0..surface.len()).find(|k| units::beyond_travel(units::travel_at(surface, *k)))
}

// The least index of a path number beyond its bounds.
pub fn bad_path_number(path: &[i32]) -> Option<usize>
    ensures { Finds (length path.now) (parameter_place path.now) result }
{
    (0..path.len()).find(|k| units::beyond_path(units::path_number_at(path, *k)))
}

// Whether x + y + z of path point c is not 1024. The path's numbers are within their bounds.
fn is_uneven(path: &[i32], c: usize) -> bool
    requires { (c < 10) × (parameter_place path.now ≡ length path.now) }
    ensures { result ≡ uneven path.now c }
{
    let x = units::path_size_at(path, 3 * c);
    let y = units::path_size_at(path, 3 * c + 1);
    let z = units::path_size_at(path, 3 * c + 2);
    x + y + z != 1024
}

// The least number of a path point, of the first `points`, whose x + y + z is not 1024.
pub fn uneven_point(path: &[i32], points: usize) -> Option<usize>
    requires { (points ≤ 10) × (parameter_place path.now ≡ length path.now) }
    ensures { Finds points (least points (uneven path.now)) result }
{
    (0..points).find(|c| is_uneven(path, *c))
}
