// The same into lent memory of any length, from a place on, as far as there is room.
ghost use Rattle.std.specs.Prelude.{[], ◌∷◌};
ghost use Rattle.hex_text.specs.Pairs.{hex_text};
ghost use Rattle.writing.specs.Fill.{Wrote};
ghost use Rattle.writing_pairs.specs.Pairs.{bytes_text};

// A byte as its pair of hex digits.
pub fn pair(out: &mut [u8], at: usize, b: u8) -> usize
    ensures { Wrote out.old at (hex_text (b ∷ [])) out.new result }
{
    let second = writing::byte(out, at, ascii::hex_digit(b / 16));
    writing::byte(out, second, ascii::hex_digit(b))
}

// Bytes as pairs, one behind the other.
fn pairs(out: &mut [u8], at: usize, bytes: &[u8]) -> usize
    ensures { Wrote out.old at (hex_text bytes.now) out.new result }
{
    let mut place = at;
    for b in bytes {
        place = pair(out, place, *b);
    }
    place
}

// Bytes as pairs, `-` for none.
pub fn bytes(out: &mut [u8], at: usize, bytes: &[u8]) -> usize
    ensures { Wrote out.old at (bytes_text bytes.now) out.new result }
{
    if bytes.is_empty() {
        return writing::byte(out, at, b'-');
    }
    pairs(out, at, bytes)
}
