// The line of a pair whose replies differ: where it is, what was asked, and what differs first.
ghost use Rattle.std.specs.Prelude.{◌≡◌, eqb, get_or, ◌++◌};
ghost use Rattle.page.specs.Page.{Puts};
ghost use Rattle.page.specs.Paper.{Adds};
ghost use Rattle.page.specs.Form.{formed};
ghost use Rattle.shown.specs.entries.Text.{newline, changes};
ghost use Rattle.shown.specs.entries.Entry.{title_of, first_difference, behind_change, what_differs, entry_line};

use crate::entries::Line;
use page::Paper;
use wire::{byte_at, word_at};

// `pair N at byte M`.
pub fn put_title(number: u64, offset: u64, paper: &mut Paper)
    ensures { Adds paper.old (title_of number offset) paper.new }
{
    let form = b"pair !1 at byte !A";
    paper.put_form(0, form, form, form, number, offset);
}

// Whether byte i of two records is the same.
fn is_alike(a: &[u8], b: &[u8], i: usize) -> bool
    ensures { result ≡ eqb (get_or a.now i 0) (get_or b.now i 0) }
{
    byte_at(a, i) == byte_at(b, i)
}

// The first byte at which two records differ, or where the shorter ends.
pub fn first_difference(a: &[u8], b: &[u8]) -> usize
    ensures { result ≡ first_difference a.now b.now }
{
    let both = a.len().min(b.len());
    for i in 0..both {
        if a[i] != b[i] {
            return i;
        }
    }
    both
}

// Replies that differ neither in number nor in place or count: in length, before the points, or in a point.
fn behind(a: &[u8], b: &[u8]) -> Line
    ensures { formed result.form changes a.now b.now result.n result.m ≡ behind_change a.now b.now ++ newline }
{
    if a.len() != b.len() {
        return Line {
            form: 4,
            n: 0,
            m: 0,
        };
    }
    let d = first_difference(a, b) as u64;
    if d < 8 {
        return Line {
            form: 5,
            n: d,
            m: 0,
        };
    }
    let k = (d - 8) / 2;
    Line {
        form: 6,
        n: k,
        m: 8 + 2 * k,
    }
}

// What differs first: the kind, the number, the place, the count, the length, a point.
fn change(a: &[u8], b: &[u8]) -> Line
    ensures { formed result.form changes a.now b.now result.n result.m ≡ what_differs a.now b.now ++ newline }
{
    if word_at(a, 2) != word_at(b, 2) {
        return Line {
            form: 0,
            n: 0,
            m: 0,
        };
    }
    if !is_alike(a, b, 4) {
        return Line {
            form: 1,
            n: 0,
            m: 0,
        };
    }
    if !is_alike(a, b, 5) {
        return Line {
            form: 2,
            n: 0,
            m: 0,
        };
    }
    if !is_alike(a, b, 6) {
        return Line {
            form: 3,
            n: 0,
            m: 0,
        };
    }
    behind(a, b)
}

fn put_change(a: &[u8], b: &[u8], paper: &mut Paper)
    ensures { Adds paper.old (what_differs a.now b.now ++ newline) paper.new }
{
    let line = change(a, b);
    paper.put_form(
        line.form,
        b"kind 0x$2, today 0x$B\n;number #4, today #D\n;place #5, today #E\n;count #6, today #F\n;length &1, today &A\n;byte !1\n;point !1 is %1, today %A\n",
        a,
        b,
        line.n,
        line.m,
    );
}

// The line, at the front of a page.
pub fn put_entry(
    number: u64,
    offset: u64,
    request: &[u8],
    recorded: &[u8],
    today: &[u8],
    page: &mut [u8],
) -> usize
    ensures { Puts page.old 0 (entry_line number offset request.now recorded.now today.now) page.new result }
{
    let mut paper = Paper { bytes: page, at: 0 };
    let form = b"pair !1 at byte !A: request kind 0x$2 form #4: ";
    paper.put_form(0, form, request, request, number, offset);
    put_change(recorded, today, &mut paper);
    paper.at
}
