// Bytes that are read and written. What a file holds cannot be promised; what is promised is which bytes went through which stream, in
// which order. No function asks anything of its caller.
#![tactic(auto)]

pub mod source;

ghost use Rattle.std.specs.Prelude.{◌≡◌, ◌+◌, pos, take};
ghost use Rattle.io.specs.Counts.{IsPrefixLen};
ghost use Rattle.capped.specs.Capped.{capped};
ghost use Rattle.streams.specs.Stream.{opened, Through, Wrote};

pub use source::Source;
// The descriptors of the standard output and of standard error, as every process has them.
const STDOUT_FILENO: i32 = 1;

const STDERR_FILENO: i32 = 2;

// An open input or output: how many bytes went through it, and whether the last call on it failed; nothing is written to one that
// failed. The descriptor is below 0 where there is none.
#[derive(Clone, Copy)]
pub struct Stream {
    fd: i32,
    pub count: u64,
    // kept: `Through`, `Wrote` and `opened`, which every contract above cites, read these fields (decision 160)
    pub failed: bool,
}

// How many bytes came, 0 at the end or where the read failed, and the stream behind them.
#[derive(Clone, Copy)]
pub struct Got {
    pub count: usize,
    pub stream: Stream,
}

// A stream of this descriptor; it has failed where there is none.
#[tactic(auto, unfolding(crate::specs::Stream::opened))]
pub fn on(fd: i32) -> Stream
    ensures { result ≡ opened fd }
{
    Stream {
        fd,
        count: 0,
        failed: fd < 0,
    }
}

// Its descriptor, for what is neither reading nor writing.
pub fn descriptor(stream: Stream) -> i32
    ensures { result ≡ stream.fd }
{
    stream.fd
}

pub fn standard_output() -> Stream
    ensures { result ≡ opened (pos 1) }
{
    on(STDOUT_FILENO)
}

pub fn standard_error() -> Stream
    ensures { result ≡ opened (pos 2) }
{
    on(STDERR_FILENO)
}

// The stream behind so many bytes more.
// kept: whether the call failed is a value of the stream, and switches nothing here
fn behind(stream: Stream, bytes: usize, failed: bool) -> Stream
    ensures { result ≡ record { fd = stream.fd; count = capped (stream.count + bytes); failed = failed } }
{
    Stream {
        fd: stream.fd,
        count: capped::sum(stream.count, bytes as u64),
        failed,
    }
}

// The next part of an input, in the lent buffer.
pub fn read(from: Stream, source: &Source, part: &mut [u8]) -> Got
    ensures { IsPrefixLen result.count part.new × Through from (take result.count part.new) result.stream }
{
    let got = source::read_part(source, part);
    let failed = got.is_err();
    let count = got.unwrap_or(0);
    Got {
        count,
        stream: behind(from, count, failed),
    }
}

// Writes bytes; nothing to a stream that has failed.
pub fn write(to: Stream, bytes: &[u8]) -> Stream
    ensures { Wrote to bytes.now result }
{
    if to.failed {
        return to;
    }
    behind(to, bytes.len(), !io::write_all(to.fd, bytes))
}
