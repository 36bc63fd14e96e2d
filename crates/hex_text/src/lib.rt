// Bytes as pairs of hex digits, read in either letter case and written in upper case.
#![tactic(auto)]

ghost use Rattle.std.specs.Prelude.{true, ◌≡◌, ◌/◌, ◌≤◌, length};
ghost use Rattle.base.specs.Write.{over};
ghost use Rattle.text.specs.Put.{put_of, put_end};
ghost use Rattle.hex_text.specs.Pairs.{pid_of, is_pairs, pairs, bytes_of, read_of, plain_of, copy_of, command_of, command_bytes, turn_of, turned_bytes, command_turn, command_text, hex_text};

// How many bytes are read before they are put in the place of their pairs.
const BLOCK: usize = 64;

// Why the bytes of a text were not read.
#[derive(Clone, Copy, Debug, PartialEq, Eq)]
pub enum Unread {
    // the text doesn't follow its form
    Bad,
    // the lent area has no room for them
    Short,
}

// Two hex digits.
pub fn pid(s: &[u8]) -> Option<u8>
    ensures { result ≡ pid_of s.now }
{
    if s.len() != 2 {
        return None;
    }
    let high = ascii::hex_value(s[0])?;
    let low = ascii::hex_value(s[1])?;
    Some(high * 16 + low)
}

// Whether s is hex digits alone, an even number of them. The highest value tells: a loop that leaves at the first other
// byte is a branch for each digit, and slow.
pub fn is_pairs(s: &[u8]) -> bool
    ensures { result ≡ is_pairs s.now }
{
    if s.len() % 2 != 0 {
        return false;
    }
    let mut highest = 0;
    for b in s {
        let v = ascii::digit_value(*b);
        if highest < v {
            highest = v;
        }
    }
    highest < 16
}

fn read_pairs(s: &[u8], out: &mut [u8])
    requires s_value { is_pairs s.now ≡ true }
    requires s_in_bounds { length s.now / 2 ≤ length out.old }
    ensures { out.new ≡ over out.old 0 (pairs s.now) }
{
    for i in 0..s.len() / 2 {
        let high = ascii::digit_value(s[2 * i]);
        let low = ascii::digit_value(s[2 * i + 1]);
        out[i] = high * 16 + low;
    }
}

// Puts the bytes whose pairs s holds at the start of out.
pub fn read(s: &[u8], out: &mut [u8]) -> Result<usize, Unread>
    ensures value { result ≡ bytes_of (length out.old) s.now }
    ensures out_after { out.new ≡ read_of out.old s.now }
{
    if !is_pairs(s) {
        return Err(Unread::Bad);
    }
    let n = s.len() / 2;
    if out.len() < n {
        return Err(Unread::Short);
    }
    read_pairs(s, out);
    Ok(n)
}

// The bytes of a block are read into memory of their own and put in their place then: with one loop that reads and writes s,
// the recorder takes more than twice as long.
fn turn_pairs(s: &mut [u8])
    requires { is_pairs s.old ≡ true }
    ensures { s.new ≡ over s.old 0 (pairs s.old) }
{
    let n = s.len() / 2;
    let mut block = [0u8; BLOCK];
    // no loop over an index: each step is a block, the last a shorter one
    let mut i = 0;
    while i < n {
        let m = BLOCK.min(n - i);
        read_pairs(&s[2 * i..2 * (i + m)], &mut block);
        text::put(s, i, &block[..m]);
        i += m;
    }
}

// Puts the bytes whose pairs s holds at the start of s itself: the pairs that are not read yet stand further on.
pub fn turn(s: &mut [u8]) -> Option<usize>
    ensures value { result ≡ turn_of s.old }
    ensures s_after { s.new ≡ over s.old 0 (turned_bytes s.old) }
{
    if !is_pairs(s) {
        return None;
    }
    turn_pairs(s);
    Some(s.len() / 2)
}

fn copy(s: &[u8], out: &mut [u8]) -> Result<usize, Unread>
    ensures value { result ≡ plain_of (length out.old) s.now }
    ensures out_after { out.new ≡ copy_of out.old s.now }
{
    if out.len() < s.len() {
        return Err(Unread::Short);
    }
    base::copy(s, out);
    Ok(s.len())
}

// Puts the bytes of a command at the start of out: `'` and the bytes themselves, or `x` and their pairs.
pub fn command(s: &[u8], out: &mut [u8]) -> Result<usize, Unread>
    ensures value { result ≡ command_of (length out.old) s.now }
    ensures out_after { out.new ≡ command_bytes out.old s.now }
{
    if s.len() == 0 {
        return Err(Unread::Bad);
    }
    if s[0] == b'\'' {
        return copy(&s[1..], out);
    }
    if s[0] == b'x' {
        return read(&s[1..], out);
    }
    Err(Unread::Bad)
}

// The same in s itself, where the bytes stand behind the mark then. No one function for both: room may lack in an area, and
// never in s.
pub fn turn_command(s: &mut [u8]) -> Option<usize>
    ensures value { result ≡ command_turn s.old }
    ensures s_after { s.new ≡ over s.old 1 (command_text s.old) }
{
    if s.len() == 0 {
        return None;
    }
    let mark = s[0];
    if mark == b'\'' {
        return Some(s.len() - 1);
    }
    if mark == b'x' {
        return turn(&mut s[1..]);
    }
    None
}

// Writes the pairs of the bytes from the place at on, as `text::put` writes a text.
pub fn put(out: &mut [u8], at: usize, bytes: &[u8]) -> usize
    ensures value { result ≡ put_end out.old at (hex_text bytes.now) }
    ensures out_after { out.new ≡ put_of out.old at (hex_text bytes.now) }
{
    if out.len() < at {
        return at;
    }
    if (out.len() - at) / 2 < bytes.len() {
        return at;
    }
    let mut place = at;
    let mut i = 0;
    while i < bytes.len() {
        let b = bytes[i];
        out[place] = ascii::hex_digit(b / 16);
        out[place + 1] = ascii::hex_digit(b);
        place += 2;
        i += 1;
    }
    place
}
