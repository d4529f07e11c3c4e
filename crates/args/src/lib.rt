// The words of a command line, the same in every program.
#![tactic(auto)]

ghost use Rattle.std.specs.Prelude.{◌≡◌, ◌&&◌, ◌+◌, eqb, ltb, length, get_or, MatchOption};
ghost use Rattle.args.specs.Args.{alike, kind_of, prefixed, number_in};

// What a word is: it asks for the help text, for the version; it says that what follows are names; it is an option; or it names
// an input.
#[derive(Clone, Copy, PartialEq, Eq)]
pub enum Kind {
    Help,
    Version,
    Rest,
    Option,
    Name,
}

// Why a word is no number that can be taken.
#[derive(Clone, Copy, PartialEq, Eq)]
pub enum NotNumber {
    TooLarge,
    NoNumber,
}

// kept: a public function, of which docs/PROMISES.md says more than of `==`.
pub fn is(word: &[u8], other: &[u8]) -> bool
    ensures { result ≡ alike word.now other.now }
{
    word == other
}

fn is_option(word: &[u8]) -> bool
    ensures { result ≡ (ltb 1 (length word.now) && eqb (get_or word.now 0 0) 45) }
{
    word.len() > 1 && word[0] == b'-'
}

#[tactic(auto, unfolding(crate::specs::Args::kind_of))]
pub fn kind_of(word: &[u8]) -> Kind
    ensures { result ≡ kind_of word.now }
{
    // kept: a match on the bytes was tried; it makes a goal of each byte, and they did not close.
    if is(word, b"-h") || is(word, b"--help") {
        return Kind::Help;
    }
    if is(word, b"--version") {
        return Kind::Version;
    }
    if is(word, b"--") {
        return Kind::Rest;
    }
    if is_option(word) {
        return Kind::Option;
    }
    Kind::Name
}

// What follows `front` in a word that begins with it.
pub fn prefix<'a>(word: &'a [u8], front: &[u8]) -> Option<&'a [u8]>
    ensures { MatchOption result (prefixed word.now front.now ≡ None) (λ rest. (prefixed word.now front.now ≡ Some rest.now) × (length rest.now + length front.now ≡ length word.now)) }
{
    word.strip_prefix(front)
}

// The number that a word is, in decimal digits.
pub fn number_of(word: &[u8]) -> Result<u64, NotNumber>
    ensures { result ≡ number_in word.now }
{
    if word.is_empty() {
        return Err(NotNumber::NoNumber);
    }
    let mut n: u64 = 0;
    for b in word {
        let d = char::from(*b).to_digit(10).ok_or(NotNumber::NoNumber)?;
        if n >= 100000000000000000 {
            return Err(NotNumber::TooLarge);
        }
        n = 10 * n + u64::from(d);
    }
    Ok(n)
}
