// Answers put together, which the calls share.
ghost use Rattle.std.specs.Prelude.{◌≡◌};
ghost use Rattle.obd2.specs.Core.{delivers, reports, no_notes, noted, queries, refusing, accepts};

use super::Said;
use super::rest::{Core, Notes, Told};
use poller::Query;
use refusal::Refusal;
use report::summary::Summary;

// What a response brought for each of its PIDs, and the report of a manager's call.
pub fn delivering(values: [u32; 6], notices: [bool; 6], summary: Summary) -> Notes
    ensures { result ≡ delivers values notices summary }
{
    let query = poller::no_query();
    Notes {
        lines: 0,
        lengths: [0u8; 8],
        values: values,
        notices: notices,
        query: query,
        summary: summary,
    }
}

// The report of a call that brings no values.
pub fn reporting(summary: Summary) -> Notes
    ensures { result ≡ reports summary }
{
    delivering([0u32; 6], [false; 6], summary)
}

pub fn no_notes() -> Notes
    ensures { result ≡ no_notes }
{
    let nothing = report::summary::none();
    reporting(nothing)
}

// A reply's lines, which stand in the lent area.
pub fn lines_of(lines: u8, lengths: [u8; 8]) -> Notes
    ensures { result ≡ noted lines lengths }
{
    let mut notes = no_notes();
    notes.lines = lines;
    notes.lengths = lengths;
    notes
}

pub fn querying(query: Query) -> Notes
    ensures { result ≡ queries query }
{
    let mut notes = no_notes();
    notes.query = query;
    notes
}

// A refused call: why, and the box as it was.
pub fn refuse(core: Core, refusal: Refusal) -> Told
    ensures { result ≡ refusing core refusal }
{
    let notes = no_notes();
    Told {
        core: core,
        answer: Err(refusal),
        notes: notes,
    }
}

// An accepted call: the box with what the call changed, and its time.
pub fn accept(mut core: Core, time: u64, said: Said, notes: Notes) -> Told
    ensures { result ≡ accepts core time said notes }
{
    core.time = time;
    Told {
        core: core,
        answer: Ok(said),
        notes: notes,
    }
}
