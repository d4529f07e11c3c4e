// What stands at the front of some bytes: a record, what is behind it, a whole pair. No function asks anything of its caller. Of the
// door nothing is known here.
#![tactic(auto)]

ghost use Rattle.std.specs.Prelude.{◌≡◌, ◌<◌};
ghost use Rattle.wire.specs.Start.{length_field, starts_record, record_in, behind as behind_in};
ghost use Rattle.pairs.specs.Cut.{pair_size};

// The greatest length of a record.
pub const LONGEST: usize = 128;

#[tactic(auto, unfolding(wire::specs::Start::length_field))]
fn length_field(bytes: &[u8]) -> usize
    ensures { (result ≡ length_field bytes.now) × (result < 65536) }
{
    wire::word_at(bytes, 0) as usize
}

// The record that starts here, as far as it is there, and what stands behind it.
#[tactic(auto, unfolding(wire::specs::Start::record_in))]
pub fn record_in(bytes: &[u8]) -> &[u8]
    ensures { result.now ≡ record_in bytes.now }
{
    &bytes[..length_field(bytes).min(bytes.len())]
}

#[tactic(auto, unfolding(wire::specs::Start::behind))]
pub fn behind(bytes: &[u8]) -> &[u8]
    ensures { result.now ≡ behind_in bytes.now }
{
    &bytes[length_field(bytes).min(bytes.len())..]
}

// A whole record starts here.
#[tactic(auto, unfolding(wire::specs::Start::starts_record, wire::specs::Start::is_length))]
pub fn starts_record(most: usize, bytes: &[u8]) -> bool
    ensures { result ≡ starts_record most bytes.now }
{
    let n = length_field(bytes);
    8 <= n && n <= most && n <= bytes.len()
}

// How many bytes the whole pair is that starts here; 0 where none does.
// kept: 0 for none, as `pair_size` in specs/ has it, by which `starts_pair` and the laws of cutting speak
#[tactic(auto, unfolding(crate::specs::Cut::pair_size, crate::specs::Cut::starts_pair))]
pub fn pair_size(most: usize, bytes: &[u8]) -> usize
    ensures { result ≡ pair_size most bytes.now }
{
    let next = behind(bytes);
    if !starts_record(most, bytes) {
        return 0;
    }
    if !starts_record(most, next) {
        return 0;
    }
    length_field(bytes) + length_field(next)
}
