// Decimal numbers as text, read and written.
#![tactic(auto)]

ghost use Rattle.std.specs.Prelude.{◌≡◌, ◌≤◌, length, drop};
ghost use Rattle.numeral.specs.Decimal.{number_of, decimal_text};
ghost use Rattle.text.specs.Put.{put_of, put_end};

// The number that s is, where that is at most max.
pub fn read(s: &[u8], max: u64) -> Option<u64>
    ensures { result ≡ number_of max s.now }
{
    if s.is_empty() {
        return None;
    }
    let mut value: u64 = 0;
    for b in s {
        if !ascii::is_between(b'0', *b, b'9') {
            return None;
        }
        value = value.checked_mul(10)?.checked_add(u64::from(*b - b'0'))?;
        // what is past max stays past it
        if max < value {
            return None;
        }
    }
    Some(value)
}

// Writes n's digits from the place at on, as `text::put` writes a text.
pub fn put(out: &mut [u8], at: usize, n: u64) -> usize
    ensures value { result ≡ put_end out.old at (decimal_text n) }
    ensures out_after { out.new ≡ put_of out.old at (decimal_text n) }
{
    let mut digits = [0u8; 20];
    let start = spell(n, &mut digits);
    text::put(out, at, &digits[start..])
}

// Puts n's digits at the end of digits, and answers where they start.
fn spell(n: u64, digits: &mut [u8]) -> usize
    requires { length digits.old ≡ 20 }
    ensures upper_bound { result ≤ 20 }
    ensures digits_after { drop result digits.new ≡ decimal_text n }
{
    let mut i = 20;
    let mut left = n;
    while i > 0 {
        i -= 1;
        digits[i] = b'0' + (left % 10) as u8;
        left = left / 10;
        if left == 0 {
            return i;
        }
    }
    i
}
