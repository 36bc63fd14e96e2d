// Texts written one behind the other, into fixed memory of their own or into lent memory: each as far as there is room, so that what is
// written is the start of the whole and all of it where there is room for all, or, by `put_whole`, whole or not at all.
#![tactic(auto)]

ghost use Rattle.std.specs.Prelude.{[], ◌∷◌, ◌≡◌, ◌≤◌, ◌-◌, List, ℕ, length, take};
ghost use Rattle.hex_text.specs.Pairs.{hex_text};
ghost use Rattle.numeral.specs.Decimal.{decimal_text};
ghost use Rattle.writing.specs.Added.{Added, whole};
ghost use Rattle.writing.specs.Fill.{Wrote};

use std::marker::Model;

// A text of at most `N` bytes: what is written goes behind it, as far as there is room.
// An array with its length, since the texts are written in fixed memory.
#[derive(Drop)]
pub struct Text<const N: usize> {
    bytes: [u8; N],
    len: usize,
}

// Clauses see the bytes that were written.
impl<const N: usize> Model for Text<N> {
    ghost Value = { List ℕ };

    ghost view = { λ t. take t.len t.bytes };

    ghost invariant = { λ t. t.len ≤ N };
}

impl<const N: usize> Text<N> {
    pub fn new() -> Self
        ensures { result ≡ [] }
    {
        Text {
            bytes: [0; N],
            len: 0,
        }
    }

    pub fn as_slice(&self) -> &[u8]
        ensures text { result.now ≡ self.now }
        ensures within { length self.now ≤ N }
    {
        &self.bytes[..self.len]
    }

    // How many bytes more there is room for.
    pub fn room(&self) -> usize
        ensures room { result ≡ N - length self.now }
        ensures within { length self.now ≤ N }
    {
        N - self.len
    }

    pub fn clear(&mut self)
        ensures { self.new ≡ [] }
    {
        self.len = 0;
    }

    // One byte, where there is room for it.
    pub fn byte(&mut self, b: u8)
        ensures { Added N self.old (b ∷ []) self.new }
    {
        if self.len < N {
            self.bytes[self.len] = b;
            self.len += 1;
        }
    }

    // As much of a text as there is room for.
    pub fn put(&mut self, s: &[u8])
        ensures { Added N self.old s.now self.new }
    {
        let at = self.len;
        let n = s.len().min(N - at);
        let bytes = &mut self.bytes[..];
        base::copy(&s[..n], &mut bytes[at..]);
        self.len = at + n;
    }

    // The whole text, or nothing where there is no room for it.
    pub fn put_whole(&mut self, s: &[u8])
        ensures { self.new ≡ whole N self.old s.now }
    {
        if s.len() <= self.room() {
            self.put(s);
        }
    }

    // Bytes as their pairs of hex digits, all of them or nothing where there is no room for all. At once: digit by digit, each asking
    // whether there is room, they take several times as long.
    pub fn pairs_whole(&mut self, s: &[u8])
        ensures { self.new ≡ whole N self.old (hex_text s.now) }
    {
        self.len = hex_text::put(&mut self.bytes, self.len, s);
    }

    // A number's digits.
    pub fn number(&mut self, n: u64)
        ensures { Added N self.old (decimal_text n) self.new }
    {
        let mut digits = [0u8; 20];
        let end = numeral::put(&mut digits, 0, n);
        self.put(&digits[..end]);
    }
}

// The same into lent memory of any length, from a place on: `Text` is for who has memory of a fixed length for the text alone.

// One byte at the place `at`, where there is room for it; the place behind it.
pub fn byte(out: &mut [u8], at: usize, b: u8) -> usize
    ensures { Wrote out.old at (b ∷ []) out.new result }
{
    if at < out.len() {
        out[at] = b;
        return at + 1;
    }
    at
}

// A text from the place `at` on, and the place behind it.
pub fn put(out: &mut [u8], at: usize, s: &[u8]) -> usize
    ensures { Wrote out.old at s.now out.new result }
{
    let mut place = at;
    for b in s {
        place = byte(out, place, *b);
    }
    place
}

// A number's digits.
pub fn number(out: &mut [u8], at: usize, n: u64) -> usize
    ensures { Wrote out.old at (decimal_text n) out.new result }
{
    let mut digits = [0u8; 20];
    let end = numeral::put(&mut digits, 0, n);
    put(out, at, &digits[..end])
}
