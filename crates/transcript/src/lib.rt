// What the program `commands` writes: each line of its input, the line's class and its number; into lent memory, or behind a text of
// fixed memory.
#![tactic(auto)]

ghost use Rattle.std.specs.Prelude.{◌≡◌, ◌+◌, ◌-◌, ◌≤◌, ◌++◌, length};
ghost use Rattle.base.specs.Write.{over};
ghost use Rattle.command.specs.Classify.{command_of};
ghost use Rattle.transcript.specs.Lines.{start_line, kept_of, text_of, keep_of, tail_text, last_text, step_text, step_line, stepped_of, usable, part_text, used_of, fed_of};
ghost use Rattle.writing.specs.Added.{Added};

use command::Command;

// The most that follows a line.
pub const TAIL: usize = 9;

// The start of the line that is being read: the first `kept` of `head`. No command's class depends on
// more than six bytes, so a line may be of any length. An array with its count, since the program runs in fixed memory.
#[derive(Clone, Copy)]
pub struct Line {
    pub head: [u8; 6],
    pub kept: u8,
}

// The first `len` of `bytes`.
#[derive(Clone, Copy)]
pub struct Text {
    pub bytes: [u8; TAIL],
    pub len: usize,
}

// The line after a part of the input, and how many bytes of it were used.
#[derive(Clone, Copy)]
pub struct Used {
    pub line: Line,
    pub used: usize,
}

// The same, and how many bytes were written.
#[derive(Clone, Copy)]
pub struct Fed {
    pub line: Line,
    pub used: usize,
    pub written: usize,
}

// The line after a byte of the input, and the place behind what that wrote.
#[derive(Clone, Copy)]
struct Stepped {
    line: Line,
    at: usize,
}

pub fn start() -> Line
    ensures { result ≡ start_line }
{
    Line {
        head: [0u8; 6],
        kept: 0,
    }
}

fn keep(mut line: Line, b: u8) -> Line
    ensures { result ≡ keep_of line b }
{
    let kept = line.kept;
    if kept < 6 {
        line.head[kept as usize] = b;
        line.kept = kept + 1;
        return line;
    }
    line
}

fn class_of(line: Line) -> Command
    ensures { result ≡ command_of (kept_of line) }
{
    let head = line.head;
    if line.kept < 6 {
        let n = line.kept as usize;
        return command::classify(&head[..n]);
    }
    command::classify(&head)
}

// What follows a line: a tab, the class, a tab, the number, a line feed.
fn tail<const N: usize>(out: &mut writing::Text<N>, c: Command)
    ensures { Added N out.old (tail_text c) out.new }
{
    match c {
        Command::Range(k) => {
            out.put(b"\trange\t");
            out.byte(b'0' + k % 10);
            out.byte(b'\n');
        }
        Command::Pid(p) => {
            out.put(b"\tpid\t");
            out.byte(ascii::hex_digit(p / 16));
            out.byte(ascii::hex_digit(p));
            out.byte(b'\n');
        }
        Command::Unknown => out.put(b"\t?\t-\n"),
    }
}

// What one byte of the input writes, and the line after it.
fn step<const N: usize>(line: Line, b: u8, out: &mut writing::Text<N>) -> Line
    requires { length out.old + 9 ≤ N }
    ensures value { result ≡ step_line line b }
    ensures out_after { out.new ≡ out.old ++ step_text line b }
{
    if b == b'\n' {
        tail(out, class_of(line));
        return start();
    }
    out.byte(b);
    keep(line, b)
}

// Uses as much of the input as surely has room behind the text, nine bytes for each.
pub fn feed_behind<const N: usize>(line: Line, input: &[u8], out: &mut writing::Text<N>) -> Used
    ensures value { result ≡ used_of line input.now (N - length out.old) }
    ensures out_after { out.new ≡ out.old ++ part_text line (usable input.now (N - length out.old)) }
{
    let n = input.len().min(out.room() / 9);
    let mut current = line;
    for i in 0..n {
        current = step(current, input[i], out);
    }
    Used {
        line: current,
        used: n,
    }
}

// What follows a line, with its own memory.
fn ending(c: Command) -> Text
    ensures result_value { text_of result ≡ tail_text c }
    ensures len_in_bounds { result.len ≤ length result.bytes }
{
    let mut out: writing::Text<TAIL> = writing::Text::new();
    tail(&mut out, c);
    let mut bytes = [0u8; TAIL];
    let s = out.as_slice();
    base::copy(s, &mut bytes);
    Text {
        bytes,
        len: s.len(),
    }
}

fn put(t: Text, out: &mut [u8], at: usize) -> usize
    requires { (t.len ≤ length t.bytes) × (at + 9 ≤ length out.old) }
    ensures value { result ≡ at + length (text_of t) }
    ensures out_after { out.new ≡ over out.old at (text_of t) }
{
    let bytes = t.bytes;
    let n = t.len;
    base::copy(&bytes[..n], &mut out[at..]);
    at + n
}

// What one byte of the input writes from a place of lent memory on, and the line after it.
fn step_at(line: Line, b: u8, out: &mut [u8], at: usize) -> Stepped
    requires { at + 9 ≤ length out.old }
    ensures value { result ≡ stepped_of line b at }
    ensures out_after { out.new ≡ over out.old at (step_text line b) }
{
    if b == b'\n' {
        let next = put(ending(class_of(line)), out, at);
        return Stepped {
            line: start(),
            at: next,
        };
    }
    out[at] = b;
    Stepped {
        line: keep(line, b),
        at: at + 1,
    }
}

// Uses as much of the input as surely has room in out, nine bytes for each.
pub fn feed(line: Line, input: &[u8], out: &mut [u8]) -> Fed
    ensures value { result ≡ fed_of line input.now (length out.old) }
    ensures out_after { out.new ≡ over out.old 0 (part_text line (usable input.now (length out.old))) }
{
    let n = input.len().min(out.len() / 9);
    let mut current = line;
    let mut at = 0;
    for i in 0..n {
        let s = step_at(current, input[i], out, at);
        current = s.line;
        at = s.at;
    }
    Fed {
        line: current,
        used: n,
        written: at,
    }
}

// What follows the last line, where the input ends without a line feed: nothing where that line is empty.
pub fn finish(line: Line) -> Text
    ensures result_value { text_of result ≡ last_text (kept_of line) }
    ensures len_in_bounds { result.len ≤ length result.bytes }
{
    if line.kept == 0 {
        return Text {
            bytes: [0u8; TAIL],
            len: 0,
        };
    }
    ending(class_of(line))
}

// The same as a text.
pub fn last(line: Line) -> writing::Text<TAIL>
    ensures { result ≡ last_text (kept_of line) }
{
    let mut out: writing::Text<TAIL> = writing::Text::new();
    if line.kept == 0 {
        return out;
    }
    tail(&mut out, class_of(line));
    out
}
