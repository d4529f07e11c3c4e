// Where the bytes of an input come from. The kit opens a file as a value, which is closed where it is dropped, and gives standard input
// to a program alone; so what is read from stands beside the stream that counts its bytes.
ghost use Rattle.std.specs.Prelude.{◌≡◌, pos, negsuc};
ghost use Rattle.std.specs.Fd.{file_raw_fd};
ghost use Rattle.std.specs.Io.{ReadsAtMost};
ghost use Rattle.streams.specs.Stream.{opened};

use crate::{Stream, on};
use std::fs::{File, metadata};
use std::io::{Error, ErrorKind, Read, Result, Seek, SeekFrom};
use std::os::fd::AsRawFd;
use std::rt::HostRuntime;

// Nothing, standard input, or a file.
// kept: three cases, so that it is no Option
#[derive(Drop)]
enum Place {
    Nowhere,
    Standard,
    Opened(File),
}

// What an input is read from, and its descriptor, which is below 0 where there is none. A file is closed where its source is dropped.
#[derive(Drop)]
pub struct Source {
    rt: HostRuntime,
    fd: i32,
    place: Place,
}

// No input, as where a file could not be opened.
pub fn nowhere(rt: HostRuntime) -> Source
    ensures { result.fd ≡ negsuc 0 }
{
    Source {
        rt,
        fd: -1,
        place: Place::Nowhere,
    }
}

pub fn standard_input(rt: HostRuntime) -> Source
    ensures { result.fd ≡ pos 0 }
{
    Source {
        rt,
        fd: 0,
        place: Place::Standard,
    }
}

// A file that was opened for reading.
pub fn of_file(rt: HostRuntime, file: File) -> Source
    ensures { result.fd ≡ file_raw_fd file }
{
    Source {
        rt,
        fd: file.as_raw_fd(),
        place: Place::Opened(file),
    }
}

// The stream of what is read from here on; it has failed where there is no input.
pub fn stream_of(source: &Source) -> Stream
    ensures { result ≡ opened source.now.fd }
{
    on(source.fd)
}

// The handle by which it was made, for the clock and for standard error.
pub fn runtime(source: &Source) -> HostRuntime
    ensures { result ≡ source.now.rt }
{
    source.rt
}

// What reading where there is no descriptor is answered by.
const EBADF: i32 = 9;

fn read_once(source: &Source, part: &mut [u8]) -> Result<usize>
    ensures { ReadsAtMost result part.new }
{
    match &source.place {
        Place::Nowhere => Err(Error::from_raw_os_error(EBADF)),
        Place::Standard => source.rt.stdin().read(part),
        Place::Opened(file) => {
            let mut file = file;
            file.read(part)
        }
    }
}

// One read, asked again where a signal broke it off. A proved loop has to end: it counts its turns down from a number that no run uses
// up.
pub(crate) fn read_part(source: &Source, part: &mut [u8]) -> Result<usize>
    ensures { ReadsAtMost result part.new }
{
    for _ in 0..u64::MAX {
        match read_once(source, part) {
            Err(e) if e.kind() == ErrorKind::Interrupted => {}
            read => return read,
        }
    }
    Err(Error::from(ErrorKind::Interrupted))
}

// How many bytes a file has, if it stands at its first one; else 0.
fn file_size(file: &File) -> Result<u64> {
    let mut file = file;
    if file.seek(SeekFrom::Current(0))? != 0 {
        return Ok(0);
    }
    let end = file.seek(SeekFrom::End(0))?;
    if file.seek(SeekFrom::Start(0))? != 0 {
        return Ok(0);
    }
    Ok(end)
}

// The same of standard input, which the kit does not move: the system tells where it stands.
fn standard_size(rt: HostRuntime) -> Result<u64> {
    let mut said = [0u8; 64];
    let mut place = File::open(&rt, "/proc/self/fdinfo/0")?;
    let n = place.read(&mut said)?;
    if !said[..n].starts_with(b"pos:\t0\n") {
        return Ok(0);
    }
    let found = metadata(&rt, "/proc/self/fd/0")?;
    Ok(if found.is_file() { found.len() } else { 0 })
}

fn known_size(source: &Source) -> Result<u64> {
    match &source.place {
        Place::Nowhere => Ok(0),
        Place::Standard => standard_size(source.rt),
        Place::Opened(file) => file_size(file),
    }
}

// How many bytes an input has that begins here, 0 where that is not known.
pub fn size_of(source: &Source) -> u64 {
    known_size(source).unwrap_or(0)
}
