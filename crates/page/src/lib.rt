// Text put on a page, a lent buffer, one piece after the other: bytes, and a word with a number. Each method puts its text where the
// last one ended, as far as there is room.
#![tactic(auto)]

ghost use Rattle.std.specs.Prelude.{◌≡◌, true, [], take};
ghost use Rattle.page.specs.Page.{counted, numbered, hex_digit, hexed, byte_shown};
ghost use Rattle.page.specs.Form.{is_mark, marked, piece, formed};
ghost use Rattle.page.specs.Paper.{Adds};

use whole::Num;
use wire::{byte_at, number_at, word_at};

// A page and where the next text goes on it.
#[derive(Drop)]
pub struct Paper<'a> {
    pub bytes: &'a mut [u8],
    pub at: usize,
}

impl<'a> Paper<'a> {
    // A text, as far as there is room.
    pub fn put(&mut self, text: &[u8])
        ensures { Adds self.old text.now self.new }
    {
        let fits = front(text, self.bytes.len().saturating_sub(self.at));
        if fits.is_empty() {
            return;
        }
        self.bytes[self.at..self.at + fits.len()].copy_from_slice(fits);
        self.at += fits.len();
    }

    // A word and a number; put_number does the same of a number with a sign.
    // kept: one function of both would need a trait over spell's two writers, longer than these lines, and so is no plainer.
    pub fn put_natural(&mut self, word: &[u8], n: u64)
        ensures { Adds self.old (counted word.now n) self.new }
    {
        let mut digits = [0u8; 20];
        let k = spell::write_natural(n, &mut digits, 0);
        self.put(word);
        self.put(&digits[..k]);
    }

    // kept: as put_natural
    pub fn put_number(&mut self, word: &[u8], n: Num)
        ensures { Adds self.old (numbered word.now n.0) self.new }
    {
        let mut digits = [0u8; 20];
        let size = spell::write_number(n, &mut digits, 0);
        self.put(word);
        self.put(&digits[..size]);
    }

    // A word and a number of two bytes in hexadecimal digits.
    pub fn put_hex(&mut self, word: &[u8], n: u64)
        ensures { Adds self.old (hexed word.now n) self.new }
    {
        let digits = [digit(n / 4096), digit(n / 256), digit(n / 16), digit(n)];
        self.put(word);
        self.put(&digits);
    }

    // A byte in hexadecimal digits, behind one that stands before it.
    pub fn put_byte(&mut self, before: u8, n: u64)
        ensures { Adds self.old (byte_shown before n) self.new }
    {
        let text = byte_shown(before, n);
        self.put(&text);
    }

    // The number that a mark stands for: at a place of a record, or x, or the signed one at m.
    #[tactic(auto, unfolding(crate::specs::Form::marked, crate::specs::Form::value_of))]
    fn put_marked(&mut self, mark: u8, place: usize, bytes: &[u8], x: u64, m: u64)
        ensures { Adds self.old (marked [] mark place bytes.now x m) self.new }
    {
        match mark {
            b'#' => self.put_natural(b"", byte_at(bytes, place)),
            b'$' => self.put_hex(b"", word_at(bytes, place)),
            b'%' => self.put_number(b"", number_at(bytes, m as usize)),
            b'&' => self.put_natural(b"", bytes.len() as u64),
            _ => self.put_natural(b"", x),
        }
    }

    // What a mark and the byte c behind it stand for: a digit is a place of the first record, a letter one of the second.
    fn put_piece(&mut self, mark: u8, c: u8, a: &[u8], b: &[u8], n: u64, m: u64)
        requires { is_mark mark ≡ true }
        ensures { Adds self.old (piece mark c a.now b.now n m) self.new }
    {
        let place = usize::from(c % 16);
        if c < b'@' {
            self.put_marked(mark, place, a, n, m);
        } else {
            self.put_marked(mark, place, b, m, m);
        }
    }

    // A whole line: form number k, in which marks stand for numbers of two records and for two numbers (specs/Form.antt).
    pub fn put_form(&mut self, k: u8, forms: &[u8], a: &[u8], b: &[u8], n: u64, m: u64)
        ensures { Adds self.old (formed k forms.now a.now b.now n m) self.new }
    {
        let mut before = k;
        let mut mark = None;
        for &c in forms {
            if before > 0 {
                if c == b';' {
                    before -= 1;
                }
            } else if let Some(sign) = mark {
                self.put_piece(sign, c, a, b, n, m);
                mark = None;
            } else if is_mark(c) {
                mark = Some(c);
            } else if c == b';' {
                return;
            } else {
                self.put(&[c]);
            }
        }
    }
}

// A digit of a number in hexadecimal, its last.
fn digit(n: u64) -> u8
    ensures { result ≡ hex_digit n }
{
    let d = (n % 16) as u8;
    if d < 10 { b'0' + d } else { b'a' - 10 + d }
}

// A byte in hexadecimal digits, behind one that stands before it.
fn byte_shown(before: u8, n: u64) -> [u8; 3]
    ensures { result ≡ byte_shown before n }
{
    [before, digit(n / 16), digit(n)]
}

// Whether a byte of a form stands for a number.
fn is_mark(c: u8) -> bool
    ensures { result ≡ is_mark c }
{
    b'!' <= c && c <= b'&'
}

// The first n bytes of a page, or all of it where there are fewer.
pub fn front(page: &[u8], n: usize) -> &[u8]
    ensures { result.now ≡ take n page.now }
{
    &page[..n.min(page.len())]
}
