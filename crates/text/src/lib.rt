// Text as bytes: cut at a byte, compared with a word, and put together in lent memory.
#![tactic(auto)]

ghost use Rattle.std.specs.Prelude.{◌≡◌};
ghost use Rattle.base.specs.Times.{times};
ghost use Rattle.text.specs.Cut.{place_of, head_of, tail_of, same_of};
ghost use Rattle.text.specs.Put.{put_of, put_end};

// The place of the first b in s, or s's length.
pub fn until(s: &[u8], b: u8) -> usize
    ensures { result ≡ place_of b s.now }
{
    s.iter().position(|x| *x == b).unwrap_or(s.len())
}

// What stands before the first b: all of s where there is none.
pub fn head(s: &[u8], b: u8) -> &[u8]
    ensures { result.now ≡ head_of b s.now }
{
    let end = until(s, b);
    &s[..end]
}

// What stands behind the first b: nothing where there is none.
pub fn tail(s: &[u8], b: u8) -> &[u8]
    ensures { result.now ≡ tail_of b s.now }
{
    let n = until(s, b);
    if n < s.len() {
        let next = n + 1;
        return &s[next..];
    }
    &s[n..]
}

// How often b stands in s: one less than the tokens that it parts.
pub fn count(s: &[u8], b: u8) -> usize
    ensures { result ≡ times b s.now }
{
    // a filter's count is a branch for each byte, and slow
    let mut n = 0;
    for x in s {
        if *x == b {
            n += 1;
        }
    }
    n
}

// Whether s is the word, byte for byte.
pub fn is(s: &[u8], word: &[u8]) -> bool
    ensures { result ≡ same_of s.now word.now }
{
    s == word
}

// Writes s from the place at on, and answers the place behind it; where it has no room, nothing is written
// and the place stays.
pub fn put(out: &mut [u8], at: usize, s: &[u8]) -> usize
    ensures value { result ≡ put_end out.old at s.now }
    ensures out_after { out.new ≡ put_of out.old at s.now }
{
    if out.len() < at {
        return at;
    }
    if out.len() - at < s.len() {
        return at;
    }
    base::copy(s, &mut out[at..]);
    at + s.len()
}
