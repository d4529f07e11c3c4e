// An old night as it comes from an input: looked through, and converted into an output. What a file holds is not known here; it is
// promised that what was written, and told, is that of the bytes that were read.
#![tactic(auto)]

pub mod converter;

ghost use Rattle.std.specs.Prelude.{◌≤◌, length};
ghost use Rattle.streams.specs.Stream.{Wrote};
ghost use Rattle.renewal.specs.converter.Put.{part_room, out_room};
ghost use Rattle.spell.specs.Decimal.{Written};
ghost use Rattle.renewal.specs.Verdict.{verdict, verdict_room};
ghost use Rattle.renewal.specs.Carried.{Carries, Looks, Renews};

use crate::converter::Converter;
use progress::Progress;
use streams::{Source, Stream};

// The input and the output behind a part, the converter, and how many bytes came.
#[derive(Clone, Copy)]
struct Night {
    input: Stream,
    out: Stream,
    converter: Converter,
    count: usize,
}

// The input behind a night and the output, to which the converted night went or, where it was looked through, nothing; whether the
// night cannot be converted, and how many requests are changed.
#[derive(Clone, Copy)]
pub struct Outcome {
    pub input: Stream,
    pub out: Stream,
    // kept: the contract `Looks`: it says how many requests are changed of a refused night too
    pub refused: bool,
    pub changed: u64,
}

// One part more; what it puts out is written where that is wanted.
// kept: no plainer: a closure in place of `wanted` would take the output and a second lent buffer for each part and hand both back
fn carry_part(
    night: Night,
    source: &Source,
    wanted: bool,
    part: &mut [u8],
    buffer: &mut [u8],
) -> Night
    requires { (length part.old ≤ part_room) × (out_room ≤ length buffer.old) }
    ensures { Carries wanted night.input night.out night.converter result.input result.out result.converter }
{
    let got = streams::read(night.input, source, part);
    let n = got.count;
    let taken = converter::take(night.converter, &part[..n], buffer);
    let out = if wanted {
        streams::write(night.out, &buffer[..taken.count])
    } else {
        night.out
    };
    Night {
        input: got.stream,
        out,
        converter: taken.converter,
        count: n,
    }
}

// Nothing says that a trace ends, and a proved loop has to: it has as many turns as no run uses up.
// kept: as of `carry_part`
fn carry_all(
    input: Stream,
    source: &Source,
    out: Stream,
    converter: Converter,
    wanted: bool,
    progress: Progress,
    part: &mut [u8],
    buffer: &mut [u8],
) -> Night
    requires { (length part.old ≤ part_room) × (out_room ≤ length buffer.old) }
    ensures { Carries wanted input out converter result.input result.out result.converter }
{
    let mut night = Night {
        input,
        out,
        converter,
        count: 0,
    };
    let mut told = progress;
    for _ in 0..u64::MAX {
        night = carry_part(night, source, wanted, part, buffer);
        // kept: the contract of `streams::read`: at the end no byte comes
        if night.count == 0 {
            break;
        }
        told = progress::tell(told, b"convert: bytes read so far", night.input.count);
    }
    night
}

// Looks through a night to its end; nothing is written to the output.
pub fn look(input: Stream, source: &Source, out: Stream, progress: Progress) -> Outcome
    ensures { Looks input out result }
{
    let mut part = io::large_buffer();
    let mut buffer = [0u8; converter::ROOM];
    let night = carry_all(
        input,
        source,
        out,
        converter::new(),
        false,
        progress,
        &mut part,
        &mut buffer,
    );
    let seen = night.converter;
    Outcome {
        input: night.input,
        out: night.out,
        refused: converter::refused(seen),
        changed: seen.changed,
    }
}

// Converts a night into an output.
pub fn renew(input: Stream, source: &Source, out: Stream, progress: Progress) -> Outcome
    ensures { Renews input out result }
{
    let mut part = io::large_buffer();
    let mut buffer = [0u8; converter::ROOM];
    let night = carry_all(
        input,
        source,
        out,
        converter::new(),
        true,
        progress,
        &mut part,
        &mut buffer,
    );
    let behind = night.converter;
    let n = converter::last(behind, &mut buffer);
    Outcome {
        input: night.input,
        out: streams::write(night.out, &buffer[..n]),
        refused: converter::refused(behind),
        changed: behind.changed,
    }
}

// The line that is printed: `converted n`, n the requests that were changed, or `not converted`.
fn write_verdict(refused: bool, changed: u64, out: &mut [u8]) -> usize
    requires { verdict_room ≤ length out.old }
    ensures { Written verdict_room out.old 0 (verdict refused changed) out.new result }
{
    if refused {
        spell::write_bytes(b"not converted\n", out, 0)
    } else {
        spell::write_named(b"converted", changed, out, 0)
    }
}

// Writes that line.
pub fn print(refused: bool, changed: u64, out: Stream) -> Stream
    ensures { Wrote out (verdict refused changed) result }
{
    let mut line = [0u8; 31];
    let n = write_verdict(refused, changed, &mut line);
    streams::write(out, &line[..n])
}
