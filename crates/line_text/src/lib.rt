// The text of a line, in a buffer that the caller lends.
#![tactic(auto)]

ghost use Rattle.std.specs.Prelude.{◌≡◌, ℕ, List, [], ◌∷◌, ◌++◌, ◌+◌, ◌<◌, ◌≤◌, length, take};
ghost use Rattle.wire.specs.Bytes.{store};
ghost use Rattle.line_text.specs.Text.{ascii, decimal, number_text, code_text, line_text, end_text, Counts};

use std::marker::Model;
use stream::{End, Line};

// The digits of a number from a place on, the highest first; answers the place after them.
// Each call gets the place by value. With a `push` for each digit, a stream whose seqs have ten digits takes a third more time.
fn put_digits(bytes: &mut [u8; 128], at: usize, n: u64) -> usize
    requires { at + length (decimal n) ≤ 128 }
    ensures place { result ≡ at + length (decimal n) }
    ensures digits { take result bytes.new ≡ take at bytes.old ++ decimal n }
{
    let last = if n >= 10 {
        put_digits(bytes, at, n / 10)
    } else {
        at
    };
    bytes[last] = b'0' + (n % 10) as u8;
    last + 1
}

// The text of a line as it grows, of at most 128 bytes. Library crates allocate nothing, so it has fixed memory.
#[derive(Drop)]
struct Text {
    bytes: [u8; 128],
    len: usize,
}

impl Model for Text {
    ghost Value = { List ℕ };

    ghost view = { λ t. take t.len t.bytes };

    ghost invariant = { λ t. t.len ≤ 128 };
}

impl Text {
    fn new() -> Self
        ensures { result ≡ [] }
    {
        Text {
            bytes: [0; 128],
            len: 0,
        }
    }

    fn as_bytes(&self) -> &[u8]
        ensures value { result.now ≡ self.now }
        ensures short { length self.now ≤ 128 }
    {
        &self.bytes[..self.len]
    }

    fn push(&mut self, byte: u8)
        requires { length self.old < 128 }
        ensures { self.new ≡ self.old ++ byte ∷ [] }
    {
        self.bytes[self.len] = byte;
        self.len += 1;
    }

    fn push_all(&mut self, bytes: &[u8])
        requires { length self.old + length bytes.now ≤ 128 }
        ensures { self.new ≡ self.old ++ bytes.now }
    {
        for byte in bytes {
            self.push(*byte);
        }
    }

    // A number in decimal.
    fn push_decimal(&mut self, n: u64)
        requires { length self.old + length (decimal n) ≤ 128 }
        ensures { self.new ≡ self.old ++ decimal n }
    {
        self.len = put_digits(&mut self.bytes, self.len, n);
    }

    // A space, and a number.
    fn push_field(&mut self, n: u64)
        requires { length self.old + 21 ≤ 128 }
        ensures value { self.new ≡ self.old ++ ascii " " ++ decimal n }
        ensures upper_bound { length self.new ≤ length self.old + 21 }
    {
        self.push(b' ');
        self.push_decimal(n);
    }

    // A space, and an id or a seq.
    #[tactic(auto, unfolding(crate::specs::Text::number_text))]
    fn push_number(&mut self, n: Option<u32>)
        requires { length self.old + 21 ≤ 128 }
        ensures value { self.new ≡ self.old ++ ascii " " ++ number_text n }
        ensures upper_bound { length self.new ≤ length self.old + 21 }
    {
        match n {
            None => self.push_all(b" -"),
            Some(n) => self.push_field(n as u64),
        }
    }

    // A space, and the error with its sign, where anything was written.
    #[tactic(auto, using(crate::proofs::Texts::decimal_fits), unfolding(crate::specs::Text::code_text))]
    fn push_error(&mut self, error: Option<i32>)
        requires { length self.old + 22 ≤ 128 }
        ensures value { self.new ≡ self.old ++ ascii " " ++ code_text error }
        ensures upper_bound { length self.new ≤ length self.old + 22 }
    {
        match error {
            None => self.push_all(b" -"),
            Some(e) if e < 0 => {
                self.push_all(b" -");
                self.push_decimal(wire::negate(e) as u64);
            }
            Some(e) => self.push_field(e.unsigned_abs() as u64),
        }
    }

    // Field after field.
    #[tactic(auto, using(crate::proofs::Texts::decimal_fits), unfolding(crate::specs::Text::line_text))]
    fn push_line(&mut self, index: u64, line: Line)
        requires { self.old ≡ [] }
        ensures { self.new ≡ line_text index line }
    {
        self.push_decimal(index);
        self.push_number(line.id);
        self.push_number(line.seq);
        self.push_field(line.answer as u64);
        self.push_field(line.count as u64);
        self.push_error(line.error);
        self.push(b'\n');
    }
}

// A line at the front of a buffer; answers how many bytes it has.
pub fn put_line(text: &mut [u8; 128], index: u64, line: Line) -> usize
    ensures value { result ≡ length (line_text index line) }
    ensures text_after { text.new ≡ store text.old 0 (line_text index line) }
    ensures counts { Counts result text.new }
{
    let mut written = Text::new();
    written.push_line(index, line);
    let bytes = written.as_bytes();
    wire::copy(text, 0, bytes);
    bytes.len()
}

// The last line, likewise.
pub fn put_end(text: &mut [u8; 128], end: End) -> usize
    ensures value { result ≡ length (end_text end) }
    ensures text_after { text.new ≡ store text.old 0 (end_text end) }
    ensures counts { Counts result text.new }
{
    let bytes: &[u8] = match end {
        End::Open => b"end open\n",
        End::Closed => b"end closed\n",
        End::Long => b"end long\n",
    };
    wire::copy(text, 0, bytes);
    bytes.len()
}
