// Numbers and lines as text, written into a lent buffer: bytes, whole numbers, a named number. Each writes from a place on
// and answers where it ends, so that lines are written one part after the other.
#![tactic(auto)]

mod decimal;
mod line;

pub use decimal::{write_natural, write_number};
pub use line::{write_bytes, write_named, write_next_natural};
