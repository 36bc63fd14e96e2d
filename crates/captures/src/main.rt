// Reads one capture from standard input, of any length, and writes its records as lines: history-format.md, "A3, reading a capture
// back". What is written is the library `capture_stream`; no more is held here than one record.
#![tactic(auto)]

ghost use Rattle.std.specs.Prelude.{[], ◌≡◌, ◌+◌, ◌*◌, ◌≤◌, length};
ghost use Rattle.capture_stream.specs.Machine.{owed_for, most_text, part_size, longest_record};

use capture_stream::Reading;
use std::io;
use std::io::{Read, Write};
use writing::Text;

// The part of the input that is read at a time.
const INPUT: usize = capture_stream::PART;

// The room in which a part is used whole.
const OUTPUT: usize = capture_stream::MOST_OWED + capture_stream::MOST_TEXT * INPUT;

// What becomes of a part of the input: the reading goes on, the input has ended, or nothing can be written any more, or counted in 64
// bits.
#[derive(Clone, Copy)]
enum Turn {
    More(Reading),
    Ended,
    Stuck,
}

// Writes what is put together, and tells whether it could. What is put together next begins anew.
fn flush<const N: usize, W: Write>(out: &mut Text<N>, writer: &mut W) -> bool
    ensures { out.new ≡ [] }
{
    let wrote = writer.write_all(out.as_slice()).is_ok();
    out.clear();
    wrote
}

// Feeds a part of the input.
fn feed_part<const N: usize, W: Write>(
    reading: Reading,
    input: &[u8],
    hold: &mut [u8],
    out: &mut Text<N>,
    writer: &mut W,
) -> Turn
    requires { out.old ≡ [] }
    ensures { out.new ≡ [] }
{
    let mut current = reading;
    // A walk: each feed tells how much of the part it used.
    let mut at = 0;
    while at < input.len() {
        let fed = capture_stream::feed_behind(current, hold, &input[at..], out);
        if !flush(out, writer) || fed.used == 0 {
            return Turn::Stuck;
        }
        current = fed.reading;
        at += fed.used;
    }
    Turn::More(current)
}

fn read_part<const N: usize, R: Read, W: Write>(
    reading: Reading,
    hold: &mut [u8],
    out: &mut Text<N>,
    reader: &mut R,
    writer: &mut W,
) -> io::Result<Turn>
    requires { out.old ≡ [] }
    ensures { out.new ≡ [] }
{
    let mut input = [0u8; INPUT];
    let n = reader.read(&mut input)?;
    if n == 0 {
        return Ok(Turn::Ended);
    }
    Ok(feed_part(reading, &input[..n], hold, out, writer))
}

// A proved loop has to end, and nothing says that an input does: the turns are fewer than a number that no run uses up. The
// memory is what `fed_output` of crates/capture_stream/specs/Used.antt asks for.
fn run<const N: usize, R: Read, W: Write>(
    hold: &mut [u8],
    out: &mut Text<N>,
    reader: &mut R,
    writer: &mut W,
) -> io::Result<()>
    requires longest_record_in_bounds { longest_record ≤ length hold.old }
    requires out_is_empty { out.old ≡ [] }
    requires part_size_in_bounds { owed_for longest_record + most_text * part_size ≤ N }
{
    let mut reading = capture_stream::start();
    for _ in 0..u64::MAX {
        match read_part(reading, hold, out, reader, writer)? {
            Turn::More(after) => reading = after,
            Turn::Ended => {
                capture_stream::finish_behind(reading, out);
                flush(out, writer);
                return Ok(());
            }
            // behind a line that could not be written there is no last one
            Turn::Stuck => return Ok(()),
        }
    }
    Ok(())
}

fn main(rt: HostRuntime) -> io::Result<()> {
    let mut reader = rt.stdin();
    let mut writer = rt.stdout();
    let mut hold = [0u8; capture_stream::HOLD];
    let mut out: Text<OUTPUT> = Text::new();
    run(&mut hold, &mut out, &mut reader, &mut writer)
}
