// A file that is made whole or not at all: a file beside it is written, brought to the disk and given its name; where something
// fails, the file beside it is removed and what stood under the name stays. What stands there and cannot be brought to a disk,
// as a terminal or a pipe, is written itself.
ghost use Rattle.std.specs.Prelude.{◌≡◌, ◌≤◌, length, IfSome};
ghost use Rattle.io.specs.Counts.{IsPrefixLen};

use crate::{call, text_of};
use std::alloc::Alloc;
use std::fs::{File, OpenOptions};
use std::io::{ErrorKind, Result};
use std::os::fd::AsRawFd;
use std::os::unix::fs::MetadataExt;
use std::path::PathBuf;
use std::process;
use std::rt::{Files, HostRuntime};
use streams::{Stream, descriptor, on};

// An output that is being written, its file, its name, and the name of the file beside it where there is one.
#[derive(Drop)]
pub struct Output<'a> {
    pub stream: Stream,
    rt: HostRuntime,
    file: Option<File>,
    name: &'a [u8],
    pub beside: Option<&'a [u8]>,
}

impl<'a> Output<'a> {
    // The output of a file that was opened; its stream has failed where none was.
    fn of(
        rt: HostRuntime,
        file: Option<File>,
        name: &'a [u8],
        beside: Option<&'a [u8]>,
    ) -> Output<'a>
        ensures { result.beside ≡ beside.entry }
    {
        Output {
            stream: match &file {
                Some(file) => on(file.as_raw_fd()),
                None => on(-1),
            },
            rt,
            file,
            name,
            beside,
        }
    }

    // Ends an output that is not wanted, or whose writing failed: what stood under the name stays.
    pub fn abandon(self) {
        drop(self.file);
        if let Some(beside) = self.beside {
            drop(unlink(self.rt, beside));
        }
    }

    // Gives the file beside its name, once it is on the disk.
    fn rename(&self) -> Result<()> {
        let Some(beside) = self.beside else {
            return Ok(());
        };
        if let Some(file) = &self.file {
            file.sync_all()?;
        }
        self.rt
            .rename(text_of(self.rt, beside)?, text_of(self.rt, self.name)?)
    }

    // Brings what was written to the disk and gives it its name, behind the last write on its stream; false where that fails or a write
    // had failed, and then errno tells why and what stood under the name stays.
    pub fn finish(self, written: Stream) -> bool {
        if written.failed || self.rename().is_err() {
            self.abandon();
            return false;
        }
        true
    }
}

// A number in decimal, as far as there is room. kept: as `call`.
fn call_number(n: u64, name: &mut [u8], at: usize) -> usize
    requires { at ≤ length name.old }
    ensures { IsPrefixLen result name.new × (length name.new ≡ length name.old) }
{
    let mut digits = [0u8; 20];
    let k = io::decimal(n, &mut digits);
    call(&digits[..k], name, at)
}

// NAME.PROCESS.part, as far as there is room. One that does not fit is too long for a name, and making it fails.
fn name_beside(rt: HostRuntime, name: &[u8], beside: &mut [u8]) -> usize
    ensures { IsPrefixLen result beside.new }
{
    let dot = call(name, beside, 0);
    let number = call(b".", beside, dot);
    let end = call_number(u64::from(process::id(rt.process())), beside, number);
    call(b".part", beside, end)
}

// A new file of this name, which has to be free.
fn create(rt: HostRuntime, name: &[u8]) -> Result<File> {
    let path = text_of(rt, name)?;
    OpenOptions::new()
        .write(true)
        .create_new(true)
        .open(&rt, path)
}

// What stands under a name: nothing or a file of a disk, something else, or what cannot be opened.
#[derive(Clone, Copy)]
enum Old {
    Replaceable,
    Other,
    Shut,
}

// What stands under this name, opened for reading and writing and left as it is.
fn open_update(rt: HostRuntime, name: &[u8]) -> Result<File> {
    let path = text_of(rt, name)?;
    OpenOptions::new().read(true).write(true).open(&rt, path)
}

fn replaced(found: Result<File>) -> Old {
    match found {
        Ok(file) if file.sync_all().is_ok() => Old::Replaceable,
        Ok(_) => Old::Other,
        Err(e) if e.kind() == ErrorKind::NotFound => Old::Replaceable,
        Err(_) => Old::Shut,
    }
}

fn overwrite(rt: HostRuntime, name: &[u8]) -> Result<File> {
    File::create(&rt, text_of(rt, name)?)
}

// Begins the output of this name; the name of the file beside it stands in `room`. Where that fails, the stream has failed and errno
// tells why.
pub fn begin<'a>(rt: HostRuntime, name: &'a [u8], room: &'a mut [u8]) -> Output<'a>
    ensures { IfSome result.beside (λ beside. length beside.now ≤ length room.old) }
{
    match replaced(open_update(rt, name)) {
        Old::Replaceable => {
            let n = name_beside(rt, name, room);
            let beside = &room[..n];
            Output::of(rt, create(rt, beside).ok(), name, Some(beside))
        }
        Old::Other => Output::of(rt, overwrite(rt, name).ok(), name, None),
        Old::Shut => Output::of(rt, None, name, None),
    }
}

fn unlink(rt: HostRuntime, name: &[u8]) -> Result<()> {
    rt.remove_file(text_of(rt, name)?)
}

// Where the system tells of an open file, at the front of `link`.
fn link_of(fd: i32, link: &mut [u8]) -> usize
    ensures { IsPrefixLen result link.new }
{
    let at = call(b"/proc/self/fd/", link, 0);
    match u64::try_from(fd) {
        Ok(n) => call_number(n, link, at),
        Err(_) => at,
    }
}

// The whole path of an open file, as the system knows it.
fn where_is(rt: HostRuntime, fd: i32) -> Result<PathBuf> {
    let mut link = [0u8; 64];
    let n = link_of(fd, &mut link);
    rt.read_link(rt.alloc(), text_of(rt, &link[..n])?)
}

fn is_same_path(rt: HostRuntime, a: i32, b: i32) -> Result<bool> {
    let here = where_is(rt, a)?;
    let there = where_is(rt, b)?;
    Ok(here.as_str() == there.as_str())
}

// The kit gives a path that is text alone, in memory that it may not get. Where there is none the files themselves are compared.
fn is_same_file(rt: HostRuntime, a: i32, b: i32) -> Result<bool> {
    let mut first = [0u8; 64];
    let mut second = [0u8; 64];
    let n = link_of(a, &mut first);
    let m = link_of(b, &mut second);
    let here = rt.metadata(text_of(rt, &first[..n])?)?;
    let there = rt.metadata(text_of(rt, &second[..m])?)?;
    Ok(here.dev() == there.dev() && here.ino() == there.ino())
}

// Whether an open input is the file of this name, which an output would replace.
pub fn is_input(rt: HostRuntime, input: Stream, name: &[u8]) -> bool {
    let Ok(file) = open_update(rt, name) else {
        return false;
    };
    let (a, b) = (descriptor(input), file.as_raw_fd());
    is_same_path(rt, a, b)
        .or_else(|_| is_same_file(rt, a, b))
        .unwrap_or(false)
}
