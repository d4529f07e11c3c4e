// The bytes of the two replies, the first that differs in brackets.
ghost use Rattle.std.specs.Prelude.{◌≡◌, ◌++◌};
ghost use Rattle.page.specs.Paper.{Adds};
ghost use Rattle.shown.specs.Text.{newline};
ghost use Rattle.shown.specs.Replied.{gap_of, last_text, line_text, end_text};

use page::Paper;

// What stands before byte k.
#[tactic(auto, unfolding(crate::specs::Replied::gap_of))]
fn gap(mark: usize, k: usize) -> u8
    ensures { result ≡ gap_of mark k }
{
    match k.checked_sub(mark) {
        Some(0) => b'[',
        Some(1) => b']',
        _ => b' ',
    }
}

// What stands behind the last of k bytes.
#[tactic(auto, unfolding(crate::specs::Replied::last_text))]
fn last(mark: usize, k: usize) -> &'static [u8]
    ensures { result.now ≡ last_text mark k ++ newline }
{
    match k.checked_sub(mark) {
        Some(0) => b"[]\n",
        Some(1) => b"]\n",
        _ => b"\n",
    }
}

// A word and all bytes, each behind a blank, the one at `mark` in brackets; a mark behind the last holds none.
pub fn put_line(word: &[u8], mark: usize, bytes: &[u8], paper: &mut Paper)
    ensures { Adds paper.old (line_text word.now mark bytes.now) paper.new }
{
    paper.put(word);
    for (k, byte) in bytes.iter().enumerate() {
        paper.put_byte(gap(mark, k), u64::from(*byte));
    }
    paper.put(last(mark, bytes.len()));
}

// Their bytes, where they differ.
pub fn put_end(a: &[u8], b: &[u8], paper: &mut Paper)
    ensures { Adds paper.old (newline ++ end_text a.now b.now) paper.new }
{
    let mark = crate::entries::first_difference(a, b);
    if a.len().max(b.len()) <= mark {
        paper.put(b"\nthe same, byte for byte\n");
        return;
    }
    put_line(b"\nrecorded ", mark, a, paper);
    put_line(b"today    ", mark, b, paper);
    let form = b"they differ at byte !1, counted from 0\n";
    paper.put_form(0, form, a, b, mark as u64, 0);
}
