// How far the reading of a night is, in words: bytes, their share where the size is known, and calls.
use page::Paper;
use progress::Progress;

// `, N %`; nothing where the size is not known.
fn put_share(count: u64, size: u64, paper: &mut Paper) {
    // kept: 0 for a size that is not known, as `streams::source::size_of`, which is public, has it
    if size == 0 {
        return;
    }
    if size <= count {
        paper.put(b", 100 %");
        return;
    }
    paper.put_natural(b", ", count / (size / 100 + 1));
    paper.put(b" %");
}

// One line; on a terminal it is written again and again in one place, and ends where the reading does.
// kept: whether it is a terminal, and whether the reading ended, are facts of the line, a byte of it each
pub fn put_far(progress: Progress, count: u64, calls: u64, ended: bool, page: &mut [u8]) -> usize {
    let mut paper = Paper { bytes: page, at: 0 };
    if progress.terminal {
        paper.put(b"\r");
    }
    paper.put_natural(b"replay: ", count);
    paper.put(b" bytes");
    put_share(count, progress.size, &mut paper);
    paper.put_natural(b", ", calls);
    paper.put(b" calls so far");
    if ended || !progress.terminal {
        paper.put(b"\n");
    }
    paper.at
}
