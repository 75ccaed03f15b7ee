// A line of output, made piece by piece: text, and numbers in lower-case hexadecimal or in decimal. The caller ensures that
// there is room.
#![tactic(auto)]

mod number;

ghost use Rattle.std.specs.Prelude.{cond, [], ◌∷◌, ◌≡◌, ◌+◌, ◌≤◌, ◌<◌, ◌^◌, List, ℕ, length, take};
ghost use Rattle.output.specs.Digits.{last_digits};
ghost use Rattle.output.specs.Lines.{Added, DecimalAdded, SignedAdded};

pub use number::{decimal, hex};
use std::io;
use std::marker::Model;

// The first len bytes are the line so far, and those behind them are 0: the programs use no heap. The longest line, with a removed
// DC, has at most 141 bytes with its end.
#[derive(Clone, Copy)]
pub struct Line {
    bytes: [u8; 160],
    len: usize,
}

// Clauses see the characters so far.
impl Model for Line {
    ghost use Rattle.std.specs.Prelude.{List, ℕ, ◌++◌, length, take};
    ghost use Rattle.std.proofs.Common.{length-take-le};
    ghost use Rattle.output.specs.Padded.{padding, IsPadded, text_padded};

    ghost Value = { List ℕ };

    ghost view = { λ l. take l.len l.bytes };

    ghost invariant = { λ l. IsPadded l.len l.bytes };

    ghost inverse = { λ t. record { bytes = t ++ padding (length t); len = length t } };

    ghost inverse_ok = { λ l h i. record { bytes = text_padded l.len l.bytes h i; len = length-take-le l.len l.bytes h.0 i } };
}

// An empty line.
pub fn empty() -> Line
    ensures text { result ≡ [] }
    ensures len { length result ≡ 0 }
{
    Line {
        bytes: [0; 160],
        len: 0,
    }
}

impl Line {
    // Adds a character.
    pub fn put(mut self, c: u8) -> Line
        requires { length self < 160 }
        ensures { Added self 1 (c ∷ []) result }
    {
        self.bytes[self.len] = c;
        self.len += 1;
        self
    }

    // Adds a space.
    pub fn space(self) -> Line
        requires { length self < 160 }
        ensures { Added self 1 (32 ∷ []) result }
    {
        self.put(b' ')
    }

    // Adds 1 for true, 0 for false.
    pub fn flag(self, b: bool) -> Line
        requires { length self < 160 }
        ensures { Added self 1 (cond b 49 48 ∷ []) result }
    {
        self.put(if b { b'1' } else { b'0' })
    }

    // Adds the characters of s.
    pub fn text(mut self, s: &[u8]) -> Line
        requires { length self + length s.now ≤ 160 }
        ensures { Added self (length s.now) s.now result }
    {
        let start = self.len;
        let end = start + s.len();
        self.bytes[start..end].copy_from_slice(s);
        self.len = end;
        self
    }

    // Adds a byte in two hexadecimal digits.
    pub fn hex2(self, v: u8) -> Line
        requires { length self + 2 ≤ 160 }
        ensures { Added self 2 (last_digits 16 2 v) result }
    {
        self.hex(u64::from(v), 2)
    }

    // Adds a word in four hexadecimal digits.
    pub fn hex4(self, v: u16) -> Line
        requires { length self + 4 ≤ 160 }
        ensures { Added self 4 (last_digits 16 4 v) result }
    {
        self.hex(u64::from(v), 4)
    }

    // Adds a number of 32 bits in eight hexadecimal digits.
    pub fn hex8(self, v: u32) -> Line
        requires { length self + 8 ≤ 160 }
        ensures { Added self 8 (last_digits 16 8 v) result }
    {
        self.hex(u64::from(v), 8)
    }

    // Adds a number in n hexadecimal digits.
    fn hex(self, v: u64, n: usize) -> Line
        requires le_n { (1 ≤ n) × (n ≤ 16) }
        requires v_bound { v < 16 ^ n }
        requires n_bound { length self + n ≤ 160 }
        ensures { Added self n (last_digits 16 n v) result }
    {
        let mut places = [0u8; 16];
        let k = number::hex(v, n, &mut places);
        self.text(&places[..k])
    }

    // Adds a number in decimal, without leading zeros.
    pub fn decimal(self, v: u64) -> Line
        requires { length self + 20 ≤ 160 }
        ensures { DecimalAdded self v result }
    {
        let mut places = [0u8; 20];
        let k = number::decimal(v, &mut places);
        self.text(&places[..k])
    }

    // Adds a signed number in decimal; a negative one has a minus sign.
    pub fn signed_decimal(self, v: i32) -> Line
        requires { length self + 21 ≤ 160 }
        ensures { SignedAdded self v result }
    {
        let magnitude = u64::from(v.unsigned_abs());
        if v < 0 {
            self.put(b'-').decimal(magnitude)
        } else {
            self.decimal(magnitude)
        }
    }

    // The characters so far.
    pub fn bytes(&self) -> &[u8]
        ensures { result.now ≡ self.now }
    {
        let line = self;
        &line.bytes[..line.len]
    }

    // How many characters there are.
    pub fn len(&self) -> usize
        ensures { result ≡ length self.now }
    {
        self.bytes().len()
    }

    // Writes the line and a newline, in one call.
    pub fn print(self, rt: &impl Print) -> io::Result<()>
        requires { length self < 160 }
    {
        rt.write_all(self.put(b'\n').bytes())
    }
}
