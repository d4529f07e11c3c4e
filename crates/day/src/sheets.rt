// The daily sheet of a recorded trace (rule Daily sheet; 02, ticket 12): its types, by value, and what one reply more adds
// to it. What a sheet is stands in specs/Sheet.antt. No function that is public asks anything of its caller.
ghost use Rattle.std.specs.Prelude.{◌≡◌, not, ◌&&◌, ◌≤◌, eqb};
ghost use Rattle.wire.specs.Words.{number_at};
ghost use Rattle.wire.specs.Start.{start};
ghost use Rattle.pairs.specs.Cut.{pair_in};
ghost use Rattle.day.specs.sheets.Sheet.{is_odd, points_in, widened, widened_all};
ghost use Rattle.day.specs.sheets.Fold.{counted_up, with_reply, adds};

use whole::Num;

// The least and the most of accepted points, where there are any.
#[derive(Clone, Copy)]
pub struct Span {
    // kept: C keeps the flag and the two numbers in arrays of its own (`lean_sheet`), whatever they hold, and gets them back
    pub some: bool,
    pub least: i64,
    pub most: i64,
}

// How many replies were odd, how many of the others have each number 0 to 10, and the least and the most of their points.
#[derive(Clone, Copy)]
pub struct Sheet {
    pub odd: u64,
    pub refusals: [u64; 11],
    pub span: Span,
}

// A refusal with a count.
fn counts_refused(number: u64, count: u64) -> bool
    ensures { result ≡ (not (eqb number 0) && not (eqb count 0)) }
{
    number != 0 && count != 0
}

#[tactic(auto, unfolding(crate::specs::sheets::Sheet::is_odd, wire::specs::Start::kind_field))]
fn is_odd(reply: &[u8]) -> bool
    ensures { result ≡ is_odd reply.now }
{
    let number = wire::byte_at(reply, 4);
    let count = wire::byte_at(reply, 6);
    wire::word_at(reply, 2) != 0x8001
        || 10 < number
        || reply.len() != 8 + 2 * (count as usize)
        || counts_refused(number, count)
}

// One point more.
#[tactic(auto, unfolding(crate::specs::sheets::Sheet::widened, crate::specs::sheets::Sheet::lesser, crate::specs::sheets::Sheet::greater))]
fn widen(span: Span, z: Num) -> Span
    ensures { result ≡ widened span z.0 }
{
    if !span.some {
        return Span {
            some: true,
            least: z.0,
            most: z.0,
        };
    }
    Span {
        some: true,
        least: span.least.min(z.0),
        most: span.most.max(z.0),
    }
}

// Point k of a reply, where k is a count of one byte.
fn point_at(reply: &[u8], k: usize) -> Num
    requires { k ≤ 255 }
    ensures { result.0 ≡ number_at reply.now start k }
{
    wire::number_at(reply, 8 + 2 * k)
}

fn widen_all(span: Span, reply: &[u8]) -> Span
    ensures { result ≡ widened_all span (points_in reply.now) }
{
    let count = wire::byte_at(reply, 6) as usize;
    let mut next = span;
    for k in 0..count {
        next = widen(next, point_at(reply, k));
    }
    next
}

#[tactic(auto, unfolding(crate::specs::sheets::Fold::counted_up))]
fn count_up(counts: &mut [u64; 11], n: usize)
    ensures { counts.new ≡ counted_up counts.old n }
{
    if n < 11 {
        counts[n] = capped::more(counts[n]);
    }
}

// One reply more: an odd one adds to `odd` and to nothing else.
fn with_reply(sheet: Sheet, reply: &[u8]) -> Sheet
    ensures { result ≡ with_reply sheet reply.now }
{
    if is_odd(reply) {
        return Sheet {
            odd: capped::more(sheet.odd),
            ..sheet
        };
    }
    let mut refusals = sheet.refusals;
    count_up(&mut refusals, wire::byte_at(reply, 4) as usize);
    Sheet {
        refusals,
        span: widen_all(sheet.span, reply),
        ..sheet
    }
}

// One pair more, whose bytes are these.
pub fn with_pair(sheet: Sheet, pair: &[u8]) -> Sheet
    ensures { result ≡ adds sheet (pair_in pair.now) }
{
    with_reply(sheet, pairs::record_in(pairs::behind(pair)))
}
