// A line of any kind: where its reading begins and ends, the word that names its kind, and what the reader of a kind hands back.
ghost use Rattle.std.specs.Prelude.{◌≡◌};
ghost use Rattle.text.specs.declared.words.Wrong.TheVariants.{LeftOver};
ghost use Rattle.text.specs.words.Words.{because};
ghost use Rattle.text.specs.words.Read.{Inside};
ghost use Rattle.text.specs.kinds.Kinds.{is_kind};
ghost use Rattle.text.specs.kinds.Read.{Begins, ReadsEnd};

use crate::words::{Cursor, Wrong, because, next};

// Where reading begins: a line that is too long is refused at once, at its byte 4096.
pub fn begin(line: &[u8]) -> Cursor
    ensures { Begins line.now result }
{
    if line.len() > 4096 {
        Cursor {
            start: 4096,
            end: 4096,
            wrong: Some(Wrong::TooLong),
        }
    } else {
        Cursor {
            start: 0,
            end: 0,
            wrong: None,
        }
    }
}

// A word that is left over.
pub fn left_over(word: Cursor) -> Cursor
    ensures { result ≡ because word LeftOver }
{
    because(word, Wrong::LeftOver)
}

// The end: no word is left.
// kept: no plainer: what is read and what is refused (`Reading`, `After`, a refusal) hold a cursor without its line
pub fn read_end(line: &[u8], from: Cursor) -> Cursor
    requires { Inside line.now from }
    ensures { ReadsEnd line.now from result }
{
    let word = next(line, from);
    if word.wrong.is_some() {
        from
    } else {
        left_over(word)
    }
}

// Whether the word at a cursor is a name.
#[tactic(auto, using(crate::proofs::words::Marks::same_word), unfolding(crate::specs::kinds::Kinds::is_kind))]
pub fn is_kind(line: &[u8], word: Cursor, name: &[u8]) -> bool
    requires { Inside line.now word }
    ensures { result ≡ is_kind line.now word name.now }
{
    word.wrong.is_none() && &line[word.start..word.end] == name
}
