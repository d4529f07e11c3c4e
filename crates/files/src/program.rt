// What every program does with its arguments before its own work: the help text, the version, and what it cannot do.
use crate::{Verdict, argument, argument_count, told};
use args::Kind;
use std::rt::HostRuntime;

// What argument i is, `rest` where `--` stood before it. One that is too long to be kept is a name, and opening it tells why it
// cannot be.
pub fn kind_at(rt: HostRuntime, i: usize, rest: bool) -> Kind {
    let mut word = io::buffer();
    if rest {
        return Kind::Name;
    }
    match argument(rt, i, &mut word) {
        Some(n) => args::kind_of(&word[..n]),
        None => Kind::Name,
    }
}

// Whether argument i is this word.
pub fn is_at(rt: HostRuntime, i: usize, word: &[u8]) -> bool {
    let mut found = io::buffer();
    let n = argument(rt, i, &mut found).unwrap_or(0);
    args::is(&found[..n], word)
}

pub const UNKNOWN: &[u8] = b"unknown option";

// What the arguments of a program ask for, as far as they are read: what each adds or, in words, why it cannot be done.
pub trait Wish: Copy {
    // An option.
    fn with_option(self, word: &[u8]) -> Result<Self, &'static [u8]>;

    // Argument i is a name.
    fn with_name(self, i: usize) -> Result<Self, &'static [u8]>;

    // Whether the next word belongs to the option before it, whatever it is.
    fn awaits(&self) -> bool {
        false
    }

    // That word.
    fn with_awaited(self, _word: &[u8]) -> Result<Self, &'static [u8]> {
        Err(UNKNOWN)
    }
}

// What ends the reading of the arguments: one asks for a text, or cannot be done.
#[derive(Clone, Copy)]
enum Stop {
    Help,
    Version,
    Cannot { what: &'static [u8], at: usize },
}

// Argument i, whose word is kept; behind `rest` every word is a name.
fn with_word<W: Wish>(wish: W, i: usize, word: &[u8], rest: &mut bool) -> Result<W, Stop> {
    let added = if wish.awaits() {
        wish.with_awaited(word)
    } else if *rest {
        wish.with_name(i)
    } else {
        match args::kind_of(word) {
            Kind::Help => return Err(Stop::Help),
            Kind::Version => return Err(Stop::Version),
            Kind::Rest => {
                *rest = true;
                Ok(wish)
            }
            Kind::Option => wish.with_option(word),
            Kind::Name => wish.with_name(i),
        }
    };
    added.map_err(|what| Stop::Cannot { what, at: i })
}

// Argument i. One that is too long to be kept is a name, and opening it tells why it cannot be.
fn with<W: Wish>(rt: HostRuntime, wish: W, i: usize, rest: &mut bool) -> Result<W, Stop> {
    let mut word = io::buffer();
    match argument(rt, i, &mut word) {
        Some(n) => with_word(wish, i, &word[..n], rest),
        None => wish
            .with_name(i)
            .map_err(|what| Stop::Cannot { what, at: i }),
    }
}

// One argument after the other, until one ends it.
fn read_all<W: Wish>(rt: HostRuntime, begun: W) -> Result<W, Stop> {
    let mut wish = begun;
    let mut rest = false;
    for i in 1..argument_count(rt) {
        wish = with(rt, wish, i, &mut rest)?;
    }
    Ok(wish)
}

// Tells what ended the reading, and answers the verdict.
fn settled(rt: HostRuntime, program: &[u8], help: &[u8], stop: Stop) -> Verdict {
    match stop {
        Stop::Help => told::text(program, help),
        Stop::Version => told::version(program),
        Stop::Cannot { what, at } => {
            told::complain(rt, program, what, at);
            Verdict::Trouble
        }
    }
}

// What the arguments ask for, which begins with what no argument asks for. Where they ask for the help text or the version, or one cannot
// be done, that is told, no work is left, and this is the verdict.
pub fn read<W: Wish>(rt: HostRuntime, program: &[u8], help: &[u8], begun: W) -> Result<W, Verdict> {
    match read_all(rt, begun) {
        Ok(wish) => Ok(wish),
        Err(stop) => Err(settled(rt, program, help, stop)),
    }
}

// Whether to tell how far the work is, and the arguments that are its names.
#[derive(Clone, Copy, Default)]
pub struct Named {
    pub progress: bool,
    pub first: Option<usize>,
    pub second: Option<usize>,
}

// The same of a program whose one option is `--progress`, and an argument that is a name too many.
#[derive(Clone, Copy, Default)]
struct Words {
    named: Named,
    third: Option<usize>,
}

impl Wish for Words {
    fn with_option(self, word: &[u8]) -> Result<Words, &'static [u8]> {
        let mut next = self;
        if !args::is(word, b"--progress") {
            return Err(UNKNOWN);
        }
        next.named.progress = true;
        Ok(next)
    }

    fn with_name(self, i: usize) -> Result<Words, &'static [u8]> {
        let mut next = self;
        if self.named.first.is_none() {
            next.named.first = Some(i);
        } else if self.named.second.is_none() {
            next.named.second = Some(i);
        } else {
            next.third = Some(i);
        }
        Ok(next)
    }
}

fn too_few(program: &[u8]) -> Verdict {
    told::say(program);
    told::say(b": a name is missing\n");
    told::point(program);
    Verdict::Trouble
}

fn too_many(rt: HostRuntime, program: &[u8], extra: usize) -> Verdict {
    told::complain(rt, program, b"one name too many:", extra);
    Verdict::Trouble
}

// Its names, where there are at least and at most so many, up to two.
fn counted(
    rt: HostRuntime,
    program: &[u8],
    words: Words,
    least: usize,
    most: usize,
) -> Result<Named, Verdict> {
    let named = words.named;
    if let Some(extra) = words.third {
        return Err(too_many(rt, program, extra));
    }
    match named.second {
        Some(extra) if most < 2 => return Err(too_many(rt, program, extra)),
        None if least > 1 => return Err(too_few(program)),
        _ => {}
    }
    if least > 0 && named.first.is_none() {
        return Err(too_few(program));
    }
    Ok(named)
}

// The names of a program's inputs and outputs, at least and at most so many, up to two. Where the arguments ask for the help text
// or the version, or are not understood, that is told, and so is the verdict; then no work is left.
pub fn names(
    rt: HostRuntime,
    program: &[u8],
    help: &[u8],
    least: usize,
    most: usize,
) -> Option<Named> {
    let read = read(rt, program, help, Words::default());
    match read.and_then(|words| counted(rt, program, words, least, most)) {
        Ok(named) => Some(named),
        Err(verdict) => {
            told::verdict(verdict);
            None
        }
    }
}
