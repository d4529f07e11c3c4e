// The room that every program shares: its arguments, its files, messages and the verdict.
//
// A new program uses it so. `program::names` reads its arguments, tells help, version and what is not understood, and says which
// arguments name its input and its output; a program with options of its own says by `program::Wish` what they ask for, and
// `program::read` reads them. `open` opens the input (`-` and no name are standard input) and `streams::read` reads parts of it, from its
// source; `streams::write` writes to a stream and remembers that it failed. An output by name is begun by `output::begin` and ended by its
// `finish` or `abandon`: it stands there whole or not at all (`output::is_input` tells whether it would replace the input).
// `told::trouble` says what failed and why, `told::written` looks at standard output behind the last write, and the last thing is
// `told::verdict`: 0, 1 or 2, with which `run` leaves. Crate `progress` says when it is time to tell how far a reading is.
#![tactic(auto)]

pub mod output;
pub mod program;
pub mod told;

ghost use Rattle.std.specs.Prelude.{◌≡◌, ◌≤◌, length, IfSome};
ghost use Rattle.io.specs.Counts.{IsPrefixLen};
ghost use Rattle.files.specs.Verdicts.{verdict_of};

use std::env::FillError;
use std::fs::File;
use std::io::{Error, ErrorKind, Result};
use std::rt::{Env, HostRuntime};
use std::str::from_utf8;
use streams::source::{nowhere, of_file, stream_of};
use streams::{Source, Stream};

// All is well; something differs, is left or could not be read; there was trouble. The worse is the greater.
#[derive(Clone, Copy, PartialEq, Eq, PartialOrd, Ord)]
pub enum Verdict {
    Well,
    Differs,
    Trouble,
}

// The verdict by its number.
impl From<u64> for Verdict {
    ghost from_gives = { λ status verdict. verdict ≡ verdict_of status };

    fn from(status: u64) -> Verdict {
        match status {
            0 => Verdict::Well,
            1 => Verdict::Differs,
            _ => Verdict::Trouble,
        }
    }
}

// An input that was opened, what it is read from, and its name; the stream failed where it could not be opened.
#[derive(Drop)]
pub struct Input<'a> {
    pub stream: Stream,
    pub source: Source,
    pub name: &'a [u8],
}

// A word in a name from place `at` on, as far as there is room, and where it ends. kept: no heap, so a name is put together in lent room.
fn call(word: &[u8], name: &mut [u8], at: usize) -> usize
    requires { at ≤ length name.old }
    ensures { IsPrefixLen result name.new × (length name.new ≡ length name.old) }
{
    let n = word.len().min(name.len() - at);
    name[at..at + n].copy_from_slice(&word[..n]);
    at + n
}

// Argument i at the front of `word`, and how many bytes it has. None where there is no such argument or no room for it, and then errno
// tells which.
pub fn argument(rt: HostRuntime, i: usize, word: &mut [u8]) -> Option<usize>
    ensures { IfSome result (λ n. IsPrefixLen n word.new) }
{
    rt.arg(i, word).ok()
}

// How many arguments there are, the program's own name among them.
pub fn argument_count(rt: HostRuntime) -> usize {
    let mut room = [0u8; 1];
    for i in 0..usize::MAX {
        if let Err(FillError::NotPresent) = rt.arg(i, &mut room) {
            return i;
        }
    }
    usize::MAX
}

// The kit opens and names files by text alone. Of a name that is none, errno is to tell that it is invalid, as it does where an argument
// is asked for that is not there.
fn text_of(rt: HostRuntime, name: &[u8]) -> Result<&str> {
    match from_utf8(name) {
        Ok(text) => Ok(text),
        Err(_) => {
            let mut room = [0u8; 1];
            argument(rt, usize::MAX, &mut room);
            Err(Error::from(ErrorKind::InvalidInput))
        }
    }
}

fn open_file(rt: HostRuntime, name: &[u8]) -> Result<File> {
    File::open(&rt, text_of(rt, name)?)
}

// The file of this name, opened for reading.
fn source_at(rt: HostRuntime, name: &[u8]) -> Source {
    match open_file(rt, name) {
        Ok(file) => of_file(rt, file),
        Err(_) => nowhere(rt),
    }
}

fn input_of(source: Source, name: &[u8]) -> Input<'_>
    ensures { result.name.now ≡ name.now }
{
    Input {
        stream: stream_of(&source),
        source,
        name,
    }
}

fn standard_input(rt: HostRuntime, room: &mut [u8]) -> Input<'_>
    ensures { length result.name.now ≤ length room.old }
{
    let n = call(b"standard input", room, 0);
    input_of(streams::source::standard_input(rt), &room[..n])
}

// Opens the file that an argument names, or standard input where there is none or it is `-`; its name stands in `room`. Where that
// fails, errno tells why.
pub fn open(rt: HostRuntime, file: Option<usize>, room: &mut [u8]) -> Input<'_>
    ensures { length result.name.now ≤ length room.old }
{
    let Some(i) = file else {
        return standard_input(rt, room);
    };
    let Some(n) = argument(rt, i, room) else {
        return input_of(nowhere(rt), &[]);
    };
    if args::is(&room[..n], b"-") {
        return standard_input(rt, room);
    }
    let name = &room[..n];
    input_of(source_at(rt, name), name)
}

// Closes an input that is not read any more.
pub fn close(source: Source) {
    drop(source);
}
