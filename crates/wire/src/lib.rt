// Numbers of two bytes, as records hold them: the low byte first. Past the end of a slice its bytes count as 0, as in the
// definitions, so that nothing is asked of a caller.
#![tactic(auto)]

ghost use Rattle.std.specs.Prelude.{◌≡◌, ◌-◌, ◌<◌, pos, neg_ℤ, get_or};
ghost use Rattle.wire.specs.Words.{word_end, Short, word_at, signed};

use whole::Num;

// Byte k.
pub fn byte_at(bytes: &[u8], k: usize) -> u64
    ensures { (result ≡ get_or bytes.now k 0) × (result < 256) }
{
    u64::from(bytes.get(k).copied().unwrap_or(0))
}

// The unsigned number at byte k.
pub fn word_at(bytes: &[u8], k: usize) -> u64
    ensures { (result ≡ word_at bytes.now k) × (result < word_end) }
{
    byte_at(bytes, k) + 256 * byte_at(bytes, k.saturating_add(1))
}

// The signed number at byte k.
pub fn number_at(bytes: &[u8], k: usize) -> Num
    ensures { (result.0 ≡ signed (word_at bytes.now k)) × Short result.0 }
{
    let word = word_at(bytes, k) as u16;
    Num(i64::from(word.cast_signed()))
}
