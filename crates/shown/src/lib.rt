// A pair in words: where it is, the request, the recorded reply beside today's, and their bytes. The page is bytes by definition; no
// public function asks anything of its caller.
#![tactic(auto)]

mod asked;
mod entries;
mod marked;
mod replied;

ghost use Rattle.std.specs.Prelude.{◌≡◌};
ghost use Rattle.page.specs.Page.{Puts};
ghost use Rattle.shown.specs.Page.{shown_page};

pub use entries::{put_ending, put_entry};
use page::Paper;

// The page of a pair.
pub fn put_page(
    number: u64,
    offset: u64,
    request: &[u8],
    recorded: &[u8],
    today: &[u8],
    page: &mut [u8],
) -> usize
    ensures { Puts page.old 0 (shown_page number offset request.now recorded.now today.now) page.new result }
{
    let mut paper = Paper { bytes: page, at: 0 };
    crate::entries::put_title(number, offset, &mut paper);
    asked::put_kind(request, &mut paper);
    marked::put_line(b"\n  bytes:", request.len() + 1, request, &mut paper);
    replied::put_table(recorded, today, &mut paper);
    marked::put_end(recorded, today, &mut paper);
    paper.at
}
