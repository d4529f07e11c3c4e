// A composed patch, summed: its domain points are put into a table of terms once, weighed by their multinomials, and crate `sums`
// sums over the table's runs as it does for a triangle of a ride, into places of two limbs.
ghost use Rattle.std.specs.Prelude.{◌≡◌, ◌+◌, ◌*◌, ◌-◌, ◌^◌, ◌≤◌, pos, length, replicate};
ghost use Rattle.request.specs.Refusal.{parameter_place};
ghost use Rattle.patch_net.specs.Patch.{most_degree, patch_of, next_of};
ghost use Rattle.patch_net.specs.Composed.{multinomial};
ghost use Rattle.patch_net.specs.Sizes.{Composable};
ghost use Rattle.patch_walk.specs.PatchTerms.{key_of};
ghost use Rattle.patch.specs.patch_sums.Contract.{most_longest, limb_count, index_of, whole, Filled, Summed};

// An index (i, j, k) of a triangular net.
#[derive(Clone, Copy)]
pub struct Place {
    pub i: usize,
    pub j: usize,
    pub k: usize,
}

// What an index of a degree up to 9 gives.
impl Place {
    // The index after it in 01's triangular order (rule Order of the numbers): j is one more, or a row ends.
    // kept: what may not change: after (9, 0, 0) comes (10, 0, 0) by `next_of`, so that the bound is no invariant of the type.
    pub fn next(self) -> Place
        requires { whole self ≤ most_longest }
        ensures { index_of result ≡ next_of (index_of self) }
    {
        if self.k == 0 {
            return Place {
                i: self.i + 1,
                j: 0,
                k: self.j.saturating_sub(1),
            };
        }
        Place {
            i: self.i,
            j: self.j + 1,
            k: self.k - 1,
        }
    }

    // Which place of the sums an index has.
    pub fn key(self) -> usize
        requires { whole self ≤ most_longest }
        ensures { result ≡ key_of (index_of self) }
    {
        10 * self.i + self.j
    }

    // (i+j+k)!/(i!·j!·k!), by two binomials.
    pub fn multinomial(self) -> u64
        requires { whole self ≤ most_longest }
        ensures { (result ≡ multinomial (index_of self)) × (result ≤ 2 ^ 18) }
    {
        let rest = self.j + self.k;
        pascal::binomial(self.i + rest, self.i) * pascal::binomial(rest, self.j)
    }
}

// The terms of a patch: domain point c weighs its multinomial, and its key is that of its index.
fn fill(N: usize, path: &[i32], t: &mut [u32; 40])
    requires { (N ≤ most_degree) × (parameter_place path.now ≡ length path.now) × (length t.old ≡ 40) }
    ensures { Filled N path.now t.new }
{
    let count = crate::patch_judge::places(N);
    let mut at = Place { i: 0, j: 0, k: N };
    for c in 0..count {
        let a = request::units::path_size_at(path, 3 * c);
        let b = request::units::path_size_at(path, 3 * c + 1);
        sums::store_term(t, c, at.key() as u64, at.multinomial(), a, b);
        at = at.next();
    }
}

// The exact numerators of a patch that is accepted, added to places that are 0: each at its index's key.
pub fn numerators(n: usize, N: usize, surface: &[i32], path: &[i32], sums: &mut [i64])
    requires { Composable (patch_of n N surface.now path.now) × (sums.old ≡ replicate limb_count (pos 0)) }
    ensures { Summed (patch_of n N surface.now path.now) sums.new }
{
    // kept: the new form is no plainer: n is a degree, and a net of degree 0 has one number.
    if n == 0 {
        limbs::settle(
            sums,
            0,
            1,
            request::units::units_of(request::units::travel_at(surface, 0)),
        );
        return;
    }
    let mut t = [0u32; 40];
    fill(N, path, &mut t);
    sums::triangle(&t, crate::patch_judge::places(N), surface, n, sums);
}
