// Reads lines from standard input and writes each with its class and its number. All of what is written
// is decided by the library `transcript`; here is only the reading and the writing.
#![tactic(auto)]

use std::io;
use std::io::{Read, Write};
use transcript::Line;
use writing::Text;

// The part of the input that is read at a time.
const INPUT: usize = 4096;

// Nine bytes of room for each that is read are what `feed` asks.
const OUTPUT: usize = 36864;

// Reads once and writes what that gives: the line after it, none where the input is at its end.
fn copy_some<R: Read, W: Write>(
    line: Line,
    reader: &mut R,
    writer: &mut W,
) -> io::Result<Option<Line>> {
    let mut input = [0u8; INPUT];
    let mut out: Text<OUTPUT> = Text::new();
    let n = reader.read(&mut input)?;
    if n == 0 {
        return Ok(None);
    }
    let fed = transcript::feed_behind(line, &input[..n], &mut out);
    let next = fed.line;
    writer.write_all(out.as_slice())?;
    Ok(Some(next))
}

fn write_last<W: Write>(line: Line, writer: &mut W) -> io::Result<()> {
    let last = transcript::last(line);
    writer.write_all(last.as_slice())
}

// A proved loop has to end, and nothing says that an input does: it takes no more turns than a number
// that no run uses up.
fn main(rt: HostRuntime) -> io::Result<()> {
    let mut reader = rt.stdin();
    let mut writer = rt.stdout();
    let mut line = transcript::start();
    for _ in 0..u64::MAX {
        let Some(next) = copy_some(line, &mut reader, &mut writer)? else {
            break;
        };
        line = next;
    }
    write_last(line, &mut writer)
}
