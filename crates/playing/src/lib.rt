// Plays a part of a history's text to the box: a call a line in, an answer a line out, as history-format.md has them. `history`
// tells what a line is and reads what it brings, `setup_calls` starts the box and `dispatch` applies a call to it, `history_answer`
// and `history_show` put the answer together. The box's arrays are lent; what is small of it goes by value.
#![tactic(auto)]

mod answers;
mod bringing;
mod tasks;

ghost use Rattle.std.specs.Prelude.{◌≡◌, length};
ghost use Rattle.clients.specs.Rules.{places};
ghost use Rattle.dispatch.specs.Dispatch.{Whole};
ghost use Rattle.obd2.specs.Core.{lent};
ghost use Rattle.poller.specs.Core.{held, polled_rows, known_rows};

use answers::{Answers, Lent};
use clients::PLACES;
use lines::Reading;
use link::ranges::{RANGE_ROW, RANGES};
use obd2::call::{Brought, Call};
use obd2::rest::Told;
use poller::rest::{KNOWN, ORDER, POLLED};
use reply::Response;
use reply::rows::ROW;
use std::io;
use std::io::Write;
use tasks::Task;
use writing::Text;

// No answer is longer: a call's has at most 4,096 bytes (`answer_room`), that of `show` 8,192 (`show_room`).
const ANSWER: usize = 16384;

// The places of the control line.
pub const WAITING: usize = control_line::places::PLACES;

// The last answer, which has what goes by value of the box, what the calls brought, and the notes beside them.
#[derive(Clone, Copy)]
pub struct Playing {
    pub last: Told,
    pub brought: Brought,
    pub notes: Notes,
}

// How many bytes of answers wait in lent memory, and the line that is being read.
#[derive(Clone, Copy)]
pub struct Notes {
    pub waiting: usize,
    pub reading: Reading,
}

// Before the first start the box is the one that a refused start gives: no box starts at so late a time.
pub fn first(
    replies: &mut [[u8; ROW]; 256],
    marks: &mut [[bool; 256]; PLACES],
    table: &mut [[u64; 8]; 256],
    slots: &mut [[u8; 2]; WAITING],
    polled: &mut [[u8; 256]; POLLED],
    known: &mut [[bool; 256]; KNOWN],
    order: &mut [u8; ORDER],
    ranges: &mut [[u8; RANGE_ROW]; RANGES],
) -> Playing
    ensures marks_len { length marks.new ≡ places }
    ensures table_len { length table.new ≡ 256 }
    ensures polled_len { length polled.new ≡ polled_rows }
    ensures known_len { length known.new ≡ known_rows }
{
    let brought = history::nothing();
    let profiles = brought.profiles;
    let settings = config::default_settings();
    let last = setup_calls::start(
        replies,
        marks,
        table,
        slots,
        polled,
        known,
        order,
        ranges,
        u64::MAX,
        settings,
        profiles,
    );
    let notes = Notes {
        waiting: 0,
        reading: lines::start(),
    };
    Playing {
        last,
        brought,
        notes,
    }
}

// The response that a call brought: one without PIDs, but for a call that is one.
fn delivered(call: Call, mut response: Response) -> Response {
    match call {
        Call::Response => response,
        _ => {
            response.count = 0;
            response
        }
    }
}

// Answers each line that ends in a part of the input. What goes by value of the box stands in the last answer and goes from it
// straight into the next call: each place that it is put down in between costs a copy of it.
fn play<A: Answers, W: Write>(
    replies: &mut [[u8; ROW]; 256],
    marks: &mut [[bool; 256]; PLACES],
    table: &mut [[u64; 8]; 256],
    slots: &mut [[u8; 2]; WAITING],
    polled: &mut [[u8; 256]; POLLED],
    known: &mut [[bool; 256]; KNOWN],
    order: &mut [u8; ORDER],
    ranges: &mut [[u8; RANGE_ROW]; RANGES],
    pids: &mut [u8; 256],
    rates: &mut [f32; 256],
    playing: Playing,
    input: &[u8],
    line: &mut [u8],
    bytes: &mut [u8],
    area: &mut [u8],
    out: &mut A,
    writer: &mut W,
) -> io::Result<Playing>
    requires { Whole (lent replies.old marks.old table.old slots.old (held polled.old known.old order.old ranges.old) pids.old rates.old) }
    ensures { Whole (lent replies.new marks.new table.new slots.new (held polled.new known.new order.new ranges.new) pids.new rates.new) }
{
    let mut last = playing.last;
    let mut brought = playing.brought;
    let mut reading = playing.notes.reading;
    let mut at = 0;
    // A while: each turn uses as many bytes as its line has.
    while at < input.len() {
        let fed = lines::feed(reading, &input[at..], line);
        at += fed.used;
        let len = fed.reading.len.min(line.len());
        let taken = tasks::take_line(fed, &line[..len], bytes, out, writer)?;
        reading = taken.reading;
        let mut task = taken.task;
        if let Some(list) = taken.list {
            match bringing::bring(brought, list, &line[..len], last.core.poller.round) {
                Some(read) => brought = read,
                // a line whose list is bad is bad
                None => task = Task::Bad,
            }
        }
        match task {
            Task::Nothing => {}
            Task::Bad => out.bad_line(),
            Task::Show => out.show(table, slots, polled, last.core),
            Task::Start(asked) => {
                last = setup_calls::start(
                    replies,
                    marks,
                    table,
                    slots,
                    polled,
                    known,
                    order,
                    ranges,
                    asked.time,
                    asked.settings,
                    brought.profiles,
                );
                // like a tick, a start brings no response
                let response = delivered(Call::Tick, brought.response);
                out.tell(pids, rates, response, last, b"");
            }
            Task::Call(asked) => {
                let cmd = &bytes[..asked.cmd.min(bytes.len())];
                let m = asked.area.min(area.len());
                let room = &mut area[..m];
                let call = asked.call;
                last = dispatch::call(
                    replies, marks, table, slots, polled, known, order, ranges, pids, rates,
                    last.core, asked.time, call, brought, cmd, room,
                );
                let response = delivered(call, brought.response);
                out.tell(pids, rates, response, last, &area[..m]);
            }
        }
    }
    out.flush(writer)?;
    let notes = Notes {
        waiting: playing.notes.waiting,
        reading,
    };
    Ok(Playing {
        last,
        brought,
        notes,
    })
}

// The answers wait in a text.
pub fn answer_behind<const N: usize, W: Write>(
    replies: &mut [[u8; ROW]; 256],
    marks: &mut [[bool; 256]; PLACES],
    table: &mut [[u64; 8]; 256],
    slots: &mut [[u8; 2]; WAITING],
    polled: &mut [[u8; 256]; POLLED],
    known: &mut [[bool; 256]; KNOWN],
    order: &mut [u8; ORDER],
    ranges: &mut [[u8; RANGE_ROW]; RANGES],
    pids: &mut [u8; 256],
    rates: &mut [f32; 256],
    playing: Playing,
    input: &[u8],
    line: &mut [u8],
    bytes: &mut [u8],
    area: &mut [u8],
    out: &mut Text<N>,
    writer: &mut W,
) -> io::Result<Playing>
    requires { Whole (lent replies.old marks.old table.old slots.old (held polled.old known.old order.old ranges.old) pids.old rates.old) }
    ensures { Whole (lent replies.new marks.new table.new slots.new (held polled.new known.new order.new ranges.new) pids.new rates.new) }
{
    play(
        replies, marks, table, slots, polled, known, order, ranges, pids, rates, playing, input,
        line, bytes, area, out, writer,
    )
}

// The answers wait in lent memory of any length, behind those that wait there already; none waits afterwards.
pub fn answer_part<W: Write>(
    replies: &mut [[u8; ROW]; 256],
    marks: &mut [[bool; 256]; PLACES],
    table: &mut [[u64; 8]; 256],
    slots: &mut [[u8; 2]; WAITING],
    polled: &mut [[u8; 256]; POLLED],
    known: &mut [[bool; 256]; KNOWN],
    order: &mut [u8; ORDER],
    ranges: &mut [[u8; RANGE_ROW]; RANGES],
    pids: &mut [u8; 256],
    rates: &mut [f32; 256],
    mut playing: Playing,
    input: &[u8],
    line: &mut [u8],
    bytes: &mut [u8],
    area: &mut [u8],
    out: &mut [u8],
    writer: &mut W,
) -> io::Result<Playing>
    requires { Whole (lent replies.old marks.old table.old slots.old (held polled.old known.old order.old ranges.old) pids.old rates.old) }
    ensures { Whole (lent replies.new marks.new table.new slots.new (held polled.new known.new order.new ranges.new) pids.new rates.new) }
{
    let mut lent = Lent {
        out,
        waiting: playing.notes.waiting,
        text: Text::new(),
    };
    playing.notes.waiting = 0;
    play(
        replies, marks, table, slots, polled, known, order, ranges, pids, rates, playing, input,
        line, bytes, area, &mut lent, writer,
    )
}
