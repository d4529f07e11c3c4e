// What the arguments ask for.
use args::NotNumber;
use files::program::{UNKNOWN, Wish};

// What is told of a night: the five lines, the pairs that differ, or this pair in words.
#[derive(Clone, Copy, Default)]
pub enum Told {
    #[default]
    Lines,
    List,
    Pair(u64),
}

// The argument that names the trace, none for standard input; what is told of it, and whether the number of a pair is to come.
#[derive(Clone, Copy, Default)]
pub struct Wanted {
    pub progress: bool,
    pub told: Told,
    pub file: Option<usize>,
    pub numberless: bool,
}

const SECOND: &[u8] = b"one trace at a time:";

const NO_NUMBER: &[u8] = b"--show asks for the number of a pair, from 1 on:";

const TOO_LARGE: &[u8] = b"too large a number:";

const BOTH: &[u8] = b"--list and --show are two things:";

impl Wanted {
    fn with_list(self) -> Result<Wanted, &'static [u8]> {
        if let Told::Pair(_) = self.told {
            return Err(BOTH);
        }
        Ok(Wanted {
            told: Told::List,
            ..self
        })
    }

    // Pair n.
    fn with_pair(self, n: u64) -> Result<Wanted, &'static [u8]> {
        if let Told::List = self.told {
            return Err(BOTH);
        }
        Ok(Wanted {
            told: Told::Pair(n),
            numberless: false,
            ..self
        })
    }
}

impl Wish for Wanted {
    fn with_option(self, word: &[u8]) -> Result<Wanted, &'static [u8]> {
        let mut next = self;
        if args::is(word, b"--list") {
            return self.with_list();
        }
        if let Some(number) = args::prefix(word, b"--show=") {
            return self.with_awaited(number);
        }
        if args::is(word, b"--show") {
            next.numberless = true;
        } else if args::is(word, b"--progress") {
            next.progress = true;
        } else {
            return Err(UNKNOWN);
        }
        Ok(next)
    }

    fn with_name(self, i: usize) -> Result<Wanted, &'static [u8]> {
        if self.file.is_some() {
            return Err(SECOND);
        }
        Ok(Wanted {
            file: Some(i),
            ..self
        })
    }

    fn awaits(&self) -> bool {
        self.numberless
    }

    // The number of a pair.
    fn with_awaited(self, word: &[u8]) -> Result<Wanted, &'static [u8]> {
        match args::number_of(word) {
            Ok(0) | Err(NotNumber::NoNumber) => Err(NO_NUMBER),
            Ok(n) => self.with_pair(n),
            Err(NotNumber::TooLarge) => Err(TOO_LARGE),
        }
    }
}
