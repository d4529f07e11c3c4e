// Counting that cannot go wrong: a number stays at the greatest of 64 bits. No function asks anything of its caller.
#![tactic(auto)]

ghost use Rattle.std.specs.Prelude.{◌≡◌, ◌+◌};
ghost use Rattle.capped.specs.Capped.{capped};

// One more, up to the greatest number.
pub fn more(n: u64) -> u64
    ensures { result ≡ capped (n + 1) }
{
    n.saturating_add(1)
}

// So many more, up to the greatest number.
pub fn sum(a: u64, b: u64) -> u64
    ensures { result ≡ capped (a + b) }
{
    a.saturating_add(b)
}
