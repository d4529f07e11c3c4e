// A request in words: its kind, form, degrees, age, control values and path, and its bytes.
ghost use Rattle.std.specs.Prelude.{◌≡◌, ◌++◌, ◌+◌, ◌*◌, ◌≤◌, ◌<◌, length};
ghost use Rattle.wire.specs.Start.{kind_field};
ghost use Rattle.judgement.specs.Record.{aged_start, head_in};
ghost use Rattle.page.specs.Page.{counted, hexed};
ghost use Rattle.page.specs.Paper.{Adds};
ghost use Rattle.shown.specs.Text.{newline, request_is, bytes_kind};
ghost use Rattle.shown.specs.Forms.{kind_of, kind_form, wish_of, wish_form};
ghost use Rattle.shown.specs.Asked.{numbers_text, wish_text, kind_text};

use page::Paper;
use request::Head;
use wire::{number_at, word_at};

// Numbers that begin at byte `from`, each after a blank.
fn put_numbers(request: &[u8], from: usize, count: usize, paper: &mut Paper)
    requires { from + 2 * count ≤ length request.now }
    ensures { Adds paper.old (numbers_text request.now from 0 count) paper.new }
{
    for k in 0..count {
        paper.put_number(b" ", number_at(request, from + 2 * k));
    }
}

// What a head asks for: no such form, a degree beyond its bounds, a body of another length, or one as long as the degrees say. Each is
// told by the form of its number.
#[derive(Clone, Copy)]
enum Wish {
    NoForm,
    NoDegree,
    OtherBody,
    Whole,
}

fn wish_in(head: Head, request: &[u8], from: usize) -> Wish
    requires { from ≤ aged_start }
    ensures { wish_form result ≡ wish_of request.now from head }
{
    if request::not_kind(head) {
        return Wish::NoForm;
    }
    if request::not_degree(head) {
        return Wish::NoDegree;
    }
    let values = request::surface_count(head);
    let path = request::path_count(head);
    if from + 2 * values + 2 * path != request.len() {
        return Wish::OtherBody;
    }
    Wish::Whole
}

// The control values and the path are told where the record is as long as the degrees say.
fn put_wish(request: &[u8], from: usize, paper: &mut Paper)
    requires { from ≤ aged_start }
    ensures { Adds paper.old (wish_text request.now from (head_in request.now)) paper.new }
{
    let head = judgement::open_record(request).head;
    let wish = wish_in(head, request, from);
    paper.put_form(
        wish as u8,
        b"\n  there is no such form;\n  a degree or N is beyond its bounds;\n  the body is not as long as the degrees say;\n  control values in 0.01 mm:",
        request,
        request,
        0,
        0,
    );
    match wish {
        Wish::NoForm | Wish::NoDegree | Wish::OtherBody => return,
        Wish::Whole => {}
    }
    let values = request::surface_count(head);
    let path = request::path_count(head);
    put_numbers(request, from, values, paper);
    paper.put(b"\n  path in 1/1024:");
    put_numbers(request, from + 2 * values, path, paper);
}

// What a request's kind and length say: no age, an age, too short for one, or no request. Each is told by the form of its number.
#[derive(Clone, Copy)]
enum Kind {
    Plain,
    Aged,
    Short,
    Other,
}

#[tactic(auto, unfolding(crate::specs::Forms::kind_of, wire::specs::Start::kind_field))]
fn kind_of(request: &[u8]) -> Kind
    ensures { kind_form result ≡ kind_of request.now }
{
    match word_at(request, 2) {
        1 => Kind::Plain,
        2 if request.len() < 10 => Kind::Short,
        2 => Kind::Aged,
        _ => Kind::Other,
    }
}

// Behind a newline: how many bytes it has, its kind, and what that kind holds.
pub fn put_kind(request: &[u8], paper: &mut Paper)
    ensures { Adds paper.old (newline ++ (counted request_is (length request.now) ++ hexed bytes_kind (kind_field request.now)) ++ kind_text request.now) paper.new }
{
    let kind = kind_of(request);
    paper.put_form(
        kind as u8,
        b"\nrequest   &1 bytes, kind 0x$2: form #4, degrees #5 #6, N #7, no age;\nrequest   &1 bytes, kind 0x$2: form #4, degrees #5 #6, N #7, age !1 ms;\nrequest   &1 bytes, kind 0x$2: too short for an age;\nrequest   &1 bytes, kind 0x$2: not a request's",
        request,
        request,
        word_at(request, 8),
        0,
    );
    match kind {
        Kind::Plain => put_wish(request, 8, paper),
        Kind::Aged => put_wish(request, 10, paper),
        Kind::Short | Kind::Other => {}
    }
}
