// The lines of a night told pair by pair: that of a pair whose replies differ, and the one that closes the list. Each is bytes by
// definition, put on a page; no function asks anything of its caller.
mod ending;
mod entry;

pub use ending::put_ending;
pub use entry::{first_difference, put_entry, put_title};

// Which of a line's forms, and the numbers in it.
// kept: put_form takes just these three; an enum of the lines would only be taken apart into them again, and so is no plainer.
#[derive(Clone, Copy)]
struct Line {
    form: u8,
    n: u64,
    m: u64,
}
