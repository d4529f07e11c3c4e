// The converter of old traces for C and Rust, fed as it comes: it crosses in two lent arrays of a size of their own, since a struct
// does not cross alike on every machine. Zeros in both are the converter that has taken nothing.
#![tactic(auto)]

ghost use Rattle.std.specs.Prelude.{◌≡◌};
ghost use Rattle.feed.specs.Feed.{held_room};
ghost use Rattle.renewal.specs.converter.Put.{feed_of, last_out};
ghost use Rattle.spell.specs.Decimal.{Told};
ghost use Rattle.lean_convert.specs.Converts.{converter_in, words_of, Converts};

use renewal::converter::Converter;

fn converter_in(held: &[u8; 256], words: &[u64; 5]) -> Converter
    ensures { result ≡ converter_in held.now words.now }
{
    Converter {
        held: *held,
        rest: words[0],
        changed: words[1],
    }
}

// kept: the C interface: a truth crosses as a number, in a lent array of words
fn put_words(words: &mut [u64; 5], converter: Converter, taken: u64, count: u64)
    ensures { words.new ≡ words_of converter taken count }
{
    let refused = u64::from(renewal::converter::refused(converter));
    *words = [converter.rest, converter.changed, taken, count, refused];
}

// Takes the next part of an old trace, at most 65,536 bytes of it, and none where `out` has fewer than 74,016; puts what they put out to the
// front of `out`. The converter is in `held`, the bytes of the pair that is not whole yet, and in `words`: how many bytes there are
// from its start on, and how many requests were changed. The other words tell how many bytes of the part were taken, how many were
// put out, and 1 where the trace cannot be converted, as far as it has come.
#[unsafe(no_mangle)]
pub extern "C" fn lean_convert(
    held: &mut [u8; 256],
    words: &mut [u64; 5],
    part: &[u8],
    out: &mut [u8],
)
    ensures { Converts held.old words.old part.now out.old
        held.new words.new out.new }
{
    let taken = renewal::converter::take(converter_in(held, words), part, out);
    let after = taken.converter;
    let bytes = after.held;
    *held = bytes;
    put_words(words, after, taken.bytes as u64, taken.count as u64);
}

// Puts what is still kept when the trace has ended to the front of `out` and answers how many bytes that is. Under 256 bytes of room
// nothing is written: 0.
#[unsafe(no_mangle)]
pub extern "C" fn lean_convert_end(held: &[u8; 256], words: &[u64; 5], out: &mut [u8]) -> usize
    ensures { Told held_room (last_out (feed_of (converter_in held.now words.now)))
        out.old result out.new }
{
    renewal::converter::last(converter_in(held, words), out)
}
