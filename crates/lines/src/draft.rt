// A line that is being made, field after field, each with the byte that ends it. Private, because it asks for room, and what is public asks nothing.
ghost use Rattle.std.specs.Prelude.{◌≡◌, ℕ, ◌+◌, ◌≤◌, List, [], ◌∷◌, ◌++◌, length, take};
ghost use Rattle.choice.specs.Text.{numeral, hex, decimal, digit_or_none};
ghost use Rattle.lines.specs.Answers.{Makes};

use crate::digits::{digit_or_none, spell, trimmed};
use std::marker::Model;

// The digits of the longest number in decimal.
const LONGEST_NUMBER: usize = 20;

// The bytes that are put so far, and room for N of them.
#[derive(Drop)]
pub(crate) struct Draft<const N: usize> {
    bytes: [u8; N],
    length: usize,
}

impl<const N: usize> Model for Draft<N> {
    ghost Value = { List ℕ };

    ghost view = { λ d. take d.length d.bytes };

    ghost invariant = { λ d. d.length ≤ N };
}

impl<const N: usize> Draft<N> {
    pub(crate) fn new() -> Self
        ensures { result ≡ [] }
    {
        Draft {
            bytes: [0; N],
            length: 0,
        }
    }

    pub(crate) fn text(&self) -> &[u8]
        ensures { result.now ≡ self.now }
    {
        &self.bytes[..self.length]
    }

    pub(crate) fn put(&mut self, text: &[u8])
        requires { length self.old + length text.now ≤ N }
        ensures text { self.new ≡ self.old ++ text.now }
        ensures long { length self.new ≡ length self.old + length text.now }
    {
        let end = self.length + text.len();
        let line = &mut self.bytes[..];
        line[self.length..end].copy_from_slice(text);
        self.length = end;
    }

    fn put_byte(&mut self, byte: u8)
        requires { length self.old + 1 ≤ N }
        ensures text { self.new ≡ self.old ++ byte ∷ [] }
        ensures long { length self.new ≡ length self.old + 1 }
    {
        self.bytes[self.length] = byte;
        self.length += 1;
    }

    // The last digits of x in a base.
    pub(crate) fn put_numeral(&mut self, x: u64, base: u64, count: usize)
        requires { (2 ≤ base) × (base ≤ 16) × (length self.old + count ≤ N) }
        ensures text { self.new ≡ self.old ++ numeral base count x }
        ensures long { length self.new ≡ length self.old + count }
    {
        let end = self.length + count;
        let line = &mut self.bytes[..];
        spell(x, base, &mut line[self.length..end]);
        self.length = end;
    }

    // A word as four hex digits.
    pub(crate) fn put_word(&mut self, x: u16, last: u8)
        requires { length self.old + 5 ≤ N }
        ensures text { self.new ≡ self.old ++ (hex 4 x ++ last ∷ []) }
        ensures long { length self.new ≡ length self.old + 5 }
    {
        self.put_numeral(x as u64, 16, 4);
        self.put_byte(last);
    }

    // A number in decimal, without zeros in front.
    pub(crate) fn put_decimal(&mut self, x: u64, last: u8)
        requires { length self.old + 21 ≤ N }
        ensures text { self.new ≡ self.old ++ (decimal x ++ last ∷ []) }
        ensures long { length self.new ≤ length self.old + 21 }
    {
        let mut number = Draft::<LONGEST_NUMBER>::new();
        number.put_numeral(x, 10, LONGEST_NUMBER);
        self.put(trimmed(number.text()));
        self.put_byte(last);
    }

    // A digit below a limit, or "-".
    pub(crate) fn put_digit(&mut self, x: u16, limit: u16, last: u8)
        requires { (length self.old + 2 ≤ N) × (limit ≤ 16) }
        ensures text { self.new ≡ self.old ++ digit_or_none limit x ∷ last ∷ [] }
        ensures long { length self.new ≡ length self.old + 2 }
    {
        self.put_byte(digit_or_none(x, limit));
        self.put_byte(last);
    }

    pub(crate) fn hand_over(&self, out: &mut [u8]) -> Option<usize>
        ensures { Makes self.now result out.old out.new }
    {
        hand_over(self.text(), out)
    }
}

// Text that was made into the slice, if there is room.
pub fn hand_over(text: &[u8], out: &mut [u8]) -> Option<usize>
    ensures { Makes text.now result out.old out.new }
{
    let n = text.len();
    if out.len() < n {
        return None;
    }
    out[..n].copy_from_slice(text);
    Some(n)
}
