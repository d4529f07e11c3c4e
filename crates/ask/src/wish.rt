// What the arguments ask for.
use files::program::{UNKNOWN, Wish};

// Whether refusals are written by name, and whether an input is named.
#[derive(Clone, Copy, Default)]
pub struct Wanted {
    pub by_names: bool,
    pub named: bool,
}

impl Wish for Wanted {
    fn with_option(self, word: &[u8]) -> Result<Wanted, &'static [u8]> {
        if args::is(word, b"--names") {
            Ok(Wanted {
                by_names: true,
                ..self
            })
        } else {
            Err(UNKNOWN)
        }
    }

    // Which one it is, is asked when it is opened.
    fn with_name(self, _i: usize) -> Result<Wanted, &'static [u8]> {
        Ok(Wanted {
            named: true,
            ..self
        })
    }
}
