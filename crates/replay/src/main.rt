// Runs the box from text: a call a line in, an answer a line out, as history-format.md has them. `playing` answers a part of the
// input. The box's arrays are locals of `main`, lent down to each call; what is small of it goes by value.
#![tactic(auto)]

ghost use Rattle.std.specs.Prelude.{◌≡◌, ◌≤◌, length};
ghost use Rattle.dispatch.specs.Dispatch.{Whole};
ghost use Rattle.obd2.specs.Core.{lent};
ghost use Rattle.poller.specs.Core.{held};

use clients::PLACES;
use link::ranges::{RANGE_ROW, RANGES};
use playing::{Playing, WAITING};
use poller::rest::{KNOWN, ORDER, POLLED};
use reply::rows::ROW;
use std::io;
use std::io::{Read, Write};
use writing::Text;

// The longest line that is taken, the largest lent area, and the room for answers that wait to be written.
const LONGEST: usize = 8191;

const AREA: usize = 4096;

const ANSWERS: usize = 65536;

// The part of the input that is read at a time.
const INPUT: usize = 65536;

// The box after a part of the input, and whether there may be more of it.
#[derive(Clone, Copy)]
struct Turn {
    playing: Playing,
    more: bool,
}

// How many bytes of a part there are to answer, of n that were read: at the input's end a line feed, which ends a last line that
// has none.
fn filled(input: &mut [u8], n: usize) -> usize
    requires { n ≤ length input.old }
    ensures { result ≤ length input.new }
{
    if n == 0 {
        if input.len() > 0 {
            input[0] = b'\n';
            return 1;
        }
    }
    n
}

// Reads a part of the input and answers it.
fn read_part<const N: usize, R: Read, W: Write>(
    replies: &mut [[u8; ROW]; 256],
    marks: &mut [[bool; 256]; PLACES],
    table: &mut [[u64; 8]; 256],
    slots: &mut [[u8; 2]; WAITING],
    polled: &mut [[u8; 256]; POLLED],
    known: &mut [[bool; 256]; KNOWN],
    order: &mut [u8; ORDER],
    ranges: &mut [[u8; RANGE_ROW]; RANGES],
    pids: &mut [u8; 256],
    rates: &mut [f32; 256],
    playing: Playing,
    line: &mut [u8],
    bytes: &mut [u8],
    area: &mut [u8],
    out: &mut Text<N>,
    reader: &mut R,
    writer: &mut W,
) -> io::Result<Turn>
    requires { Whole (lent replies.old marks.old table.old slots.old (held polled.old known.old order.old ranges.old) pids.old rates.old) }
    ensures { Whole (lent replies.new marks.new table.new slots.new (held polled.new known.new order.new ranges.new) pids.new rates.new) }
{
    let mut input = [0u8; INPUT];
    let n = reader.read(&mut input)?;
    let m = filled(&mut input, n);
    Ok(Turn {
        playing: playing::answer_behind(
            replies,
            marks,
            table,
            slots,
            polled,
            known,
            order,
            ranges,
            pids,
            rates,
            playing,
            &input[..m],
            line,
            bytes,
            area,
            out,
            writer,
        )?,
        more: n != 0,
    })
}

// A proved loop has to end, and nothing says that an input does: there are more turns than any run uses up.
fn run<const N: usize, R: Read, W: Write>(
    replies: &mut [[u8; ROW]; 256],
    marks: &mut [[bool; 256]; PLACES],
    table: &mut [[u64; 8]; 256],
    slots: &mut [[u8; 2]; WAITING],
    polled: &mut [[u8; 256]; POLLED],
    known: &mut [[bool; 256]; KNOWN],
    order: &mut [u8; ORDER],
    ranges: &mut [[u8; RANGE_ROW]; RANGES],
    pids: &mut [u8; 256],
    rates: &mut [f32; 256],
    line: &mut [u8],
    bytes: &mut [u8],
    area: &mut [u8],
    out: &mut Text<N>,
    reader: &mut R,
    writer: &mut W,
) -> io::Result<()>
    requires pids_len { length pids.old ≡ 256 }
    requires rates_len { length rates.old ≡ 256 }
{
    let mut playing = playing::first(replies, marks, table, slots, polled, known, order, ranges);
    for _ in 0..u64::MAX {
        let turn = read_part(
            replies, marks, table, slots, polled, known, order, ranges, pids, rates, playing, line,
            bytes, area, out, reader, writer,
        )?;
        playing = turn.playing;
        if !turn.more {
            return Ok(());
        }
    }
    Ok(())
}

fn main(rt: HostRuntime) -> io::Result<()> {
    let mut reader = rt.stdin();
    let mut writer = rt.stdout();
    let mut line = [0u8; LONGEST];
    let mut bytes = [0u8; LONGEST];
    let mut area = [0u8; AREA];
    let mut out: Text<ANSWERS> = Text::new();
    let mut replies = reply::rows::blank();
    let mut marks = clients::seats::blank();
    let mut table = [[0u64; 8]; 256];
    let mut slots = [[0u8; 2]; WAITING];
    let mut polled = [[0u8; 256]; POLLED];
    let mut known = [[false; 256]; KNOWN];
    let mut order = [0u8; ORDER];
    let mut ranges = link::ranges::blank();
    let mut pids = [0u8; 256];
    let mut rates = [0.0f32; 256];
    run(
        &mut replies,
        &mut marks,
        &mut table,
        &mut slots,
        &mut polled,
        &mut known,
        &mut order,
        &mut ranges,
        &mut pids,
        &mut rates,
        &mut line,
        &mut bytes,
        &mut area,
        &mut out,
        &mut reader,
        &mut writer,
    )
}
