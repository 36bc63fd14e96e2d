// Bytes and words written into a text as hex digits, one behind the other, as far as there is room.
#![tactic(auto)]

pub mod memory;

ghost use Rattle.std.specs.Prelude.{[], ◌∷◌, ◌≡◌};
ghost use Rattle.std.specs.Float.{binary32};
ghost use Rattle.std.specs.Float.Ieee.{to_bits};
ghost use Rattle.hex_text.specs.Pairs.{hex_text};
ghost use Rattle.writing.specs.Added.{Added};
ghost use Rattle.writing_pairs.specs.Pairs.{bytes_text, word_text};

use writing::Text;

// A byte as its pair of hex digits.
pub fn pair<const N: usize>(out: &mut Text<N>, b: u8)
    ensures { Added N out.old (hex_text (b ∷ [])) out.new }
{
    out.byte(ascii::hex_digit(b / 16));
    out.byte(ascii::hex_digit(b));
}

// Bytes as pairs, one behind the other.
pub fn pairs<const N: usize>(out: &mut Text<N>, bytes: &[u8])
    ensures { Added N out.old (hex_text bytes.now) out.new }
{
    if bytes.len() <= out.room() / 2 {
        return out.pairs_whole(bytes);
    }
    // there is no room for all of them
    for b in bytes {
        pair(out, *b);
    }
}

// Bytes as pairs, `-` for none.
pub fn bytes<const N: usize>(out: &mut Text<N>, bytes: &[u8])
    ensures { Added N out.old (bytes_text bytes.now) out.new }
{
    if bytes.is_empty() {
        out.byte(b'-');
    } else {
        pairs(out, bytes);
    }
}

// 32 bits as eight hex digits.
pub fn word<const N: usize>(out: &mut Text<N>, word: u32)
    ensures { Added N out.old (word_text word) out.new }
{
    pair(out, (word / 16777216 % 256) as u8);
    pair(out, (word / 65536 % 256) as u8);
    pair(out, (word / 256 % 256) as u8);
    pair(out, (word % 256) as u8);
}

// The bits of a float. No machine is bound to one of the patterns of a NaN, so that one is picked here.
pub fn bits(x: f32) -> u32
    ensures { result ≡ to_bits binary32 x }
{
    if x != x {
        return 0x7FC00000;
    }
    f32::to_bits(x)
}
