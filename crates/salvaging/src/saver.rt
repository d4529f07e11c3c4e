// Salvaging a torn trace (rule Salvage; 02, ticket 13) as its bytes come: what lies ahead in a window of them, of which so much is
// decided whatever comes behind, and the line of a run of skipped bytes. The caller slides the window over the trace, so that
// memory does not grow with it. No function that is public asks anything of its caller.
ghost use Rattle.std.specs.Prelude.{◌≡◌, ◌||◌, ◌≤◌, eqb, length};
ghost use Rattle.wire.specs.Start.{is_length, length_field, kind_field};
ghost use Rattle.pairs.specs.Cut.{longest_record};
ghost use Rattle.spell.specs.Decimal.{Written};
ghost use Rattle.door.specs.Contract.{reply_of};
ghost use Rattle.torn.specs.Lines.{skip_line};
ghost use Rattle.torn.specs.Window.{cut_off, waits as waits_in, passes as passes_in, skips_ahead, keeps_ahead, closed_line};
ghost use Rattle.salvaging.specs.saver.Ahead.{line_room, kept_size, Closes, Leaves, stretch_of};

// Where a salvage stands: the offset in the torn trace from which on bytes were skipped, and how many of them.
#[derive(Clone, Copy)]
pub struct Place {
    pub from: u64,
    pub lost: u64,
}

// What lies ahead: so many bytes are skipped, and so many behind them are kept; how many bytes the line of the run is that is over
// then; and the place behind all of them.
#[derive(Clone, Copy)]
pub struct Stretch {
    pub skipped: usize,
    pub kept: usize,
    pub line: usize,
    pub place: Place,
}

// The kinds of a request, without and with the age of its tilt sample.
const REQUEST_KIND: u64 = 0x0001;

const AGED_KIND: u64 = 0x0002;

// The length with which a record starts here is one of a record.
#[tactic(auto, unfolding(wire::specs::Start::is_length, wire::specs::Start::length_field))]
fn has_length(bytes: &[u8]) -> bool
    ensures { result ≡ is_length longest_record (length_field bytes.now) }
{
    let n = wire::word_at(bytes, 0) as usize;
    8 <= n && n <= pairs::LONGEST
}

// A record is cut off here.
#[tactic(auto, unfolding(torn::specs::Window::cut_off, wire::specs::Start::length_field))]
fn cut_off(bytes: &[u8]) -> bool
    ensures { result ≡ cut_off longest_record bytes.now }
{
    bytes.len() < 2 || has_length(bytes) && bytes.len() < wire::word_at(bytes, 0) as usize
}

// A pair is cut off here.
// kept: of one shape with `ends_long` of crate renewal, as the definitions of both are; one function would be longer than its two bodies
#[tactic(auto, unfolding(torn::specs::Window::waits))]
fn waits(window: &[u8]) -> bool
    ensures { result ≡ waits_in longest_record window.now }
{
    cut_off(window)
        || pairs::starts_record(pairs::LONGEST, window) && cut_off(pairs::behind(window))
}

// A request of one of the two kinds.
#[tactic(auto, unfolding(wire::specs::Start::kind_field))]
fn of_kind(request: &[u8]) -> bool
    ensures { result ≡ (eqb (kind_field request.now) 1 || eqb (kind_field request.now) 2) }
{
    let kind = wire::word_at(request, 2);
    kind == REQUEST_KIND || kind == AGED_KIND
}

// How many bytes the pair is that is kept here, if one is.
fn size_kept(window: &[u8]) -> Option<usize>
    ensures { result ≡ kept_size longest_record reply_of window.now }
{
    let n = pairs::pair_size(pairs::LONGEST, window);
    // kept: the contract of `pairs::pair_size`: 0 where no pair is
    if n != 0 && of_kind(pairs::record_in(window)) && door::tally::agree(window) {
        Some(n)
    } else {
        None
    }
}

// The first byte is skipped, whatever comes behind; where the trace has ended, nothing does.
#[tactic(auto, unfolding(torn::specs::Window::passes, crate::specs::saver::Ahead::kept_size))]
fn passes(window: &[u8], last: bool) -> bool
    ensures { result ≡ passes_in longest_record reply_of last window.now }
{
    size_kept(window).is_none() && (last || !waits(window))
}

// So many bytes at the front are skipped.
fn skips_ahead(window: &[u8], last: bool) -> usize
    ensures { result ≡ skips_ahead longest_record reply_of last window.now }
{
    for i in 0..window.len() {
        if !passes(&window[i..], last) {
            return i;
        }
    }
    window.len()
}

// So many bytes at the front are those of pairs that are kept.
fn keeps_ahead(window: &[u8]) -> usize
    ensures { result ≡ keeps_ahead longest_record reply_of window.now }
{
    let mut i = 0;
    // kept: a pair has any number of bytes, so this is no `for`
    while let Some(n) = size_kept(&window[i..]) {
        i += n;
    }
    i
}

// `skip offset length` and a newline.
fn write_skip(place: Place, line: &mut [u8]) -> usize
    requires { line_room ≤ length line.old }
    ensures { Written line_room line.old 0 (skip_line place.from place.lost) line.new result }
{
    let a = spell::write_bytes(b"skip", line, 0);
    let b = spell::write_next_natural(place.from, line, a);
    let c = spell::write_next_natural(place.lost, line, b);
    spell::write_bytes(b"\n", line, c)
}

// The line of the run that is over, at the front of `line`; answers how many bytes it is, 0 where nothing was skipped. Under 47 bytes
// of room nothing is written: 0.
pub fn close(place: Place, line: &mut [u8]) -> usize
    ensures { Closes place line.old result line.new }
{
    if line.len() < 47 {
        return 0;
    }
    if place.lost == 0 {
        return 0;
    }
    write_skip(place, line)
}

// What lies ahead in a window, behind which more bytes may come or, where it is the last, none. The line of the run that is over is put
// at the front of `line`; under 47 bytes of room nothing lies ahead.
pub fn ahead(window: &[u8], last: bool, place: Place, line: &mut [u8]) -> Stretch
    ensures { Leaves (stretch_of last window.now place line.old) line.new result }
{
    if line.len() < 47 {
        return Stretch {
            skipped: 0,
            kept: 0,
            line: 0,
            place,
        };
    }
    let skipped = skips_ahead(window, last);
    let kept = keeps_ahead(&window[skipped..]);
    let run = Place {
        from: place.from,
        lost: capped::sum(place.lost, skipped as u64),
    };
    if kept == 0 {
        return Stretch {
            skipped,
            kept,
            line: 0,
            place: run,
        };
    }
    let size = close(run, line);
    Stretch {
        skipped,
        kept,
        line: size,
        place: Place {
            from: capped::sum(capped::sum(run.from, run.lost), kept as u64),
            lost: 0,
        },
    }
}
