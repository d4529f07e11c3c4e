// The seven refusals of a patch (rule Patches on patches; 02, ticket 8), tested in their order: `judge` answers a number, a place
// and a count for every patch and writes nothing. VALUE, PARAMETER and BALANCE are tested by the function that tests them for rides.
ghost use Rattle.std.specs.Prelude.{◌≡◌, ◌≤◌};
ghost use Rattle.patch_net.specs.Patch.{patch_of, places};
ghost use Rattle.patch_net.specs.Refusal.{answer};

use request::Answer;
use request::refusals::Refusal;

const MOST_DEGREE: u32 = 3;

// How many numbers a triangular net of degree d has.
pub fn places(d: usize) -> usize
    requires { d ≤ 9 }
    ensures { result ≡ places d }
{
    (d + 1) * (d + 2) / 2
}

// The seven refusals in their order, each exactly on its condition, or the acceptance: the answer to a patch of outer degree n and
// domain degree N whose output arrays have these rooms. Each degree is tested before the two are multiplied.
#[tactic(auto, unfolding(patch_net::specs::Refusal::answer, patch_net::specs::Refusal::refusals, patch_net::specs::Refusal::not_degree, patch_net::specs::Refusal::not_surface, patch_net::specs::Refusal::not_path, patch_net::specs::Refusal::not_room, patch_net::specs::Patch::longest, request::specs::Cascade::first, request::specs::Cascade::decided))]
pub fn judge(n: u32, N: u32, surface: &[i32], path: &[i32], exact: usize, points: usize) -> Answer
    ensures { result ≡ answer (patch_of n N surface.now path.now) exact points }
{
    if n > MOST_DEGREE || N > MOST_DEGREE {
        return Refusal::Degree.at(0);
    }
    let outer = n as usize;
    let domain = N as usize;
    let values = places(outer);
    let of_domain = places(domain);
    let numbers = 3 * of_domain;
    let count = places(outer * domain);
    if surface.len() != values {
        return Refusal::Surface.at(0);
    }
    if path.len() != numbers {
        return Refusal::Path.at(0);
    }
    if exact < count || points < count {
        return Refusal::Room.at(0);
    }
    judge::judge_numbers(surface, path, of_domain, Answer::accepted(count))
}
