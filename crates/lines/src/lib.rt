// Lines read into lent memory from an input that comes in parts, however it is cut. A line that is longer
// than the memory is one line still, and marked.
#![tactic(auto)]

ghost use Rattle.std.specs.Prelude.{◌≡◌};
ghost use Rattle.text.specs.Cut.{head_of};
ghost use Rattle.lines.specs.Reading.{start_reading, kept_of, kept_bytes, fed_of, answers_of};

// The line that is being read: its first `len` bytes stand at the start of the memory, and it has more
// where it is `long`.
#[derive(Clone, Copy)]
pub struct Reading {
    pub len: usize,
    pub long: bool,
}

// The line after a part of the input, how many bytes of the part were used, and whether the line's end was
// among them.
#[derive(Clone, Copy)]
pub struct Fed {
    pub reading: Reading,
    pub used: usize,
    pub ended: bool,
}

pub fn start() -> Reading
    ensures { result ≡ start_reading }
{
    Reading {
        len: 0,
        long: false,
    }
}

// Bytes of the line behind those that were read; what has no room is left out.
fn keep(r: Reading, s: &[u8], line: &mut [u8]) -> Reading
    ensures value { result ≡ kept_of line.old r s.now }
    ensures line_after { line.new ≡ kept_bytes line.old r s.now }
{
    let at = r.len.min(line.len());
    let room = line.len() - at;
    if room < s.len() {
        base::copy(&s[..room], &mut line[at..]);
        return Reading {
            len: at + room,
            long: true,
        };
    }
    base::copy(s, &mut line[at..]);
    Reading {
        len: at + s.len(),
        long: r.long,
    }
}

// Uses the input up to the end of the line, the line feed included.
pub fn feed(r: Reading, input: &[u8], line: &mut [u8]) -> Fed
    ensures value { result ≡ fed_of line.old r input.now }
    ensures line_after { line.new ≡ kept_bytes line.old r (head_of 10 input.now) }
{
    let n = text::until(input, b'\n');
    let reading = keep(r, &input[..n], line);
    if n < input.len() {
        return Fed {
            reading,
            used: n + 1,
            ended: true,
        };
    }
    Fed {
        reading,
        used: n,
        ended: false,
    }
}

// Whether a line is one that is answered: it is neither empty nor a comment.
pub fn answers(line: &[u8]) -> bool
    ensures { result ≡ answers_of line.now }
{
    if line.is_empty() {
        return false;
    }
    line[0] != b'#'
}
