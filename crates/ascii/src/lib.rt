// Letters and hex digits in ASCII.
#![tactic(auto)]

ghost use Rattle.std.specs.Prelude.{◌≡◌};
ghost use Rattle.ascii.specs.Chars.{between, upper, hex_value, hex_of, hex_digit};

pub fn is_between(low: u8, b: u8, high: u8) -> bool
    ensures { result ≡ between low b high }
{
    low <= b && b <= high
}

#[tactic(auto, using(crate::specs::Chars::upper_is))]
pub fn to_upper(b: u8) -> u8
    ensures { result ≡ upper b }
{
    b.to_ascii_uppercase()
}

// The value of a hex digit in either letter case, 16 for any other byte: a number, since hex_text takes the highest of
// many, and the recorder takes an eighth longer where that is an Option.
pub fn digit_value(b: u8) -> u8
    ensures { result ≡ hex_value b }
{
    if is_between(b'0', b, b'9') {
        return b - b'0';
    }
    if is_between(b'A', b, b'F') {
        return b - b'A' + 10;
    }
    if is_between(b'a', b, b'f') {
        return b - b'a' + 10;
    }
    16
}

// The same, none for any other byte.
pub fn hex_value(b: u8) -> Option<u8>
    ensures { result ≡ hex_of b }
{
    let value = digit_value(b);
    if value < 16 { Some(value) } else { None }
}

// The hex digit of n's last four bits, in upper case.
pub fn hex_digit(n: u8) -> u8
    ensures { result ≡ hex_digit n }
{
    let d = n % 16;
    if d < 10 {
        return b'0' + d;
    }
    b'A' + (d - 10)
}
