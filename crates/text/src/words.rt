// The words of a line: a cursor that goes from word to word, and the whole number that a word spells. A cursor that is refused
// stays where the wrong word stands, so that readers go on straight to the end of a line.
ghost use Rattle.std.specs.Prelude.{◌≡◌, Bool, false, ℕ, ◌+◌, ◌-◌, ◌*◌, ◌≤◌, ◌<◌, min, length};
ghost use Rattle.text.specs.words.Words.{because, is_blank, begins, is_age};
ghost use Rattle.text.specs.words.Read.{Skips, Inside, Finds, cap, ReadsDigits, ReadsWord, ReadsAge};

// Why a line is unreadable: a word that is not a whole number, a number out of its bounds, too few words, a word left
// over, a line too long; or a number of the caller's own, which is handed on, and told as a line too long is.
#[derive(Clone, Copy)]
pub enum Wrong {
    NotNumber,
    Outside,
    TooFew,
    LeftOver,
    TooLong,
    Other(u8),
}

// The word that was read last stands from start to before end, and reading goes on at end; or something is wrong with
// the word, and nothing more is read.
#[derive(Clone, Copy)]
pub struct Cursor {
    pub start: usize,
    pub end: usize,
    pub wrong: Option<Wrong>,
}

// What was read, and the cursor after it.
#[derive(Clone, Copy)]
pub struct After<T> {
    pub cursor: Cursor,
    pub value: T,
}

// A whole number by its sign and its size.
#[derive(Clone, Copy)]
pub struct Whole {
    // kept: a size is held to the bound of its own sign, and -0 keeps its sign
    pub minus: bool,
    pub size: u64,
}

// The word that is wrong, and why.
pub(crate) fn because(word: Cursor, wrong: Wrong) -> Cursor
    ensures { result ≡ because word wrong }
{
    Cursor {
        wrong: Some(wrong),
        ..word
    }
}

// A space, a tab or a carriage return.
#[tactic(auto, unfolding(crate::specs::words::Words::is_blank))]
pub fn is_blank(b: u8) -> bool
    ensures { result ≡ is_blank b }
{
    matches!(b, b' ' | b'\t' | b'\r')
}

// From `at` on past all bytes that pass the test.
pub fn skip<F: Fn(u8) -> bool>(line: &[u8], at: usize, passes: F) -> usize
    requires within { at ≤ length line.now }
    requires test { F.IsAlwaysCallable passes }
    ensures inside { (at ≤ result) × (result ≤ length line.now) }
    ensures passed { (p : ℕ → Bool) → ((b : ℕ) (r : Bool) → F.post passes b r → r ≡ p b) → Skips p line.now at result }
{
    let rest = &line[at..];
    at + rest.iter().position(|&b| !passes(b)).unwrap_or(rest.len())
}

// The next word. Too few words where none is left; from a refused cursor nothing is read.
pub fn next(line: &[u8], from: Cursor) -> Cursor
    requires { Inside line.now from }
    ensures { Finds line.now from result }
{
    if from.wrong.is_some() {
        return from;
    }
    let start = skip(line, from.end, is_blank);
    let end = skip(line, start, |b| !is_blank(b));
    let wrong = if start == end {
        Some(Wrong::TooFew)
    } else {
        None
    };
    Cursor { start, end, wrong }
}

// The number of one or more digits, up to a bound. It is capped on the way, above every bound.
fn bounded(digits: &[u8], bound: u64) -> Result<u64, Wrong>
    requires { bound < cap }
    ensures { ReadsDigits digits.now bound result }
{
    if digits.is_empty() {
        return Err(Wrong::NotNumber);
    }
    let mut n = 0;
    for &b in digits {
        if !b.is_ascii_digit() {
            return Err(Wrong::NotNumber);
        }
        n = (n * 10 + u64::from(b - b'0')).min(4294967296);
    }
    if bound < n {
        return Err(Wrong::Outside);
    }
    Ok(n)
}

// The whole number of a word, from -below to above.
pub fn number_of(word: &[u8], below: u64, above: u64) -> Result<Whole, Wrong>
    requires { (0 < length word.now) × (below < cap) × (above < cap) }
    ensures { ReadsWord word.now below above result }
{
    if let Some(digits) = word.strip_prefix(b"-") {
        let size = bounded(digits, below)?;
        return Ok(Whole { minus: true, size });
    }
    let size = bounded(word, above)?;
    Ok(Whole { minus: false, size })
}

// Whether a word begins with a mark.
// kept: docs/PROMISES.md promises it by name
#[tactic(auto, using(crate::proofs::words::Marks::starts_mark))]
pub fn begins(word: &[u8], mark: &[u8]) -> bool
    ensures { result ≡ begins mark.now word.now }
{
    word.starts_with(mark)
}

// Whether a word begins with `age=`.
#[tactic(auto, unfolding(crate::specs::words::Words::is_age))]
pub fn is_age(word: &[u8]) -> bool
    ensures { result ≡ is_age word.now }
{
    begins(word, b"age=")
}

// The number behind `age=`; a word that does not begin so is left over.
pub fn age_of(word: &[u8]) -> Result<u64, Wrong>
    ensures { ReadsAge word.now result }
{
    match word.strip_prefix(b"age=") {
        Some(digits) => bounded(digits, 65535),
        None => Err(Wrong::LeftOver),
    }
}
