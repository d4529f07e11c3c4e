// The recorded reply and today's, side by side.
ghost use Rattle.std.specs.Prelude.{◌≡◌, ◌++◌, ◌≤◌, ◌<◌, cond, max};
ghost use Rattle.page.specs.Paper.{Adds};
ghost use Rattle.shown.specs.Forms.{lacks};
ghost use Rattle.shown.specs.Replied.{point_count, answer_text, heads_text, places_text, rows_text};

use page::Paper;
use wire::{byte_at, word_at};

// How many points a reply has: none where it is a refusal, or not as long as its count says.
#[tactic(auto, unfolding(crate::specs::Replied::point_count, wire::specs::Start::kind_field))]
fn points(reply: &[u8]) -> usize
    ensures { (result ≡ point_count reply.now) × (result < 256) }
{
    let count = byte_at(reply, 6);
    let has_points = word_at(reply, 2) == 0x8001
        && byte_at(reply, 4) == 0
        && 8 + 2 * count == reply.len() as u64;
    if has_points { count as usize } else { 0 }
}

fn put_answer(reply: &[u8], paper: &mut Paper)
    ensures { Adds paper.old (answer_text reply.now) paper.new }
{
    if word_at(reply, 2) != 0x8001 {
        paper.put(b"not a reply");
        return;
    }
    let n = byte_at(reply, 4);
    // kept: the record's own byte, of which answer_text says that 0 is accepted.
    if n == 0 {
        paper.put(b"accepted");
        return;
    }
    paper.put_natural(b"refused ", n);
    paper.put(b" ");
    paper.put(names::name_of(n));
}

#[tactic(auto, unfolding(crate::specs::Forms::lacks))]
fn lacks_point(reply: &[u8], k: usize) -> bool
    ensures { cond result 1 0 ≡ lacks reply.now k }
{
    points(reply) <= k
}

// A row for each point; a reply that has no such point has a dash.
fn put_rows(a: &[u8], b: &[u8], count: usize, paper: &mut Paper)
    requires { count ≤ 256 }
    ensures { Adds paper.old (rows_text a.now b.now 0 count) paper.new }
{
    for k in 0..count {
        paper.put_form(
            u8::from(lacks_point(a, k)) + 2 * u8::from(lacks_point(b, k)),
            b"\n  point !1  %1 | %A;\n  point !1  - | %A;\n  point !1  %1 | -;\n  point !1  - | -",
            a,
            b,
            k as u64,
            8 + 2 * k as u64,
        );
    }
}

// All but the last newline.
pub fn put_table(a: &[u8], b: &[u8], paper: &mut Paper)
    ensures { Adds paper.old (heads_text a.now b.now ++ places_text a.now b.now ++ rows_text a.now b.now 0 (max (point_count a.now) (point_count b.now))) paper.new }
{
    paper.put_form(
        0,
        b"reply      recorded | today (points in 0.01 mm)\n  bytes    &1 | &A\n  kind     0x$2 | 0x$B\n  answer   ",
        a,
        b,
        0,
        0,
    );
    put_answer(a, paper);
    paper.put(b" | ");
    put_answer(b, paper);
    let form = b"\n  place    #5 | #E\n  count    #6 | #F";
    paper.put_form(0, form, a, b, 0, 0);
    put_rows(a, b, points(a).max(points(b)), paper);
}
