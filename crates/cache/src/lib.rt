// Asking the client cache (the Rust's answer_obd, and get_cached_value up to where it blocks).
#![tactic(auto)]

pub mod asking;

ghost use Rattle.std.specs.Prelude.{◌≡◌};
ghost use Rattle.cache.specs.Rules.{range_of, range_step, step_of};

use command::Command;
use desk::Desk;
use reply::Reply;

// The range queries, 0100 to 01E0.
const RANGES: usize = 8;

// Where a command goes: it is turned down since there is no connection (or the range has no reply), its range
// reply has no lines, it is not understood, it asks for a stored range reply, or for a PID.
#[derive(Clone, Copy)]
pub enum Step {
    Disconnected,
    Empty,
    Unclear,
    Stored(u8),
    ToCache(u8),
}

// What an ask is answered. A reading names Consumed of its PID, without a wait, and a wait names Waiting.
#[derive(Clone, Copy)]
pub enum Answer {
    // UNABLE TO CONNECT
    Unable,
    // NO DATA
    NoData,
    // ?
    Unknown,
    Range,
    Reading(u8),
    Waiting(u8),
}

// The refusal is document 01's number, 0 where the ask is accepted. The lines' lengths are of the reply that stands at
// the start of the lent area, none where the answer has no reply.
#[derive(Clone, Copy)]
pub struct Asked {
    pub desk: Desk,
    pub refusal: u8,
    pub answer: Answer,
    // An array with its count, since the box runs in fixed memory.
    pub lines: u8,
    pub lengths: [u8; reply::MAX_LINES],
}

// A range's stored reply. A number that is no range's has none.
#[tactic(auto, unfolding(crate::specs::Rules::range_of))]
fn range(ranges: [Option<Reply>; RANGES], n: u8) -> Option<Reply>
    ensures { result ≡ range_of ranges n }
{
    let i = n as usize;
    if i < RANGES { ranges[i] } else { None }
}

#[tactic(auto, unfolding(crate::specs::Rules::range_step))]
fn range_step(n: u8, found: Option<Reply>) -> Step
    ensures { result ≡ range_step n found }
{
    match found {
        None => Step::Disconnected,
        Some(reply) if reply.lines == 0 => Step::Empty,
        Some(_) => Step::Stored(n),
    }
}

fn first_step(connected: bool, ranges: [Option<Reply>; RANGES], cmd: &[u8]) -> Step
    ensures { result ≡ step_of connected ranges cmd.now }
{
    if !connected {
        return Step::Disconnected;
    }
    let asked = command::classify(cmd);
    match asked {
        Command::Range(n) => {
            let found = range(ranges, n);
            range_step(n, found)
        }
        Command::Pid(pid) => Step::ToCache(pid),
        Command::Unknown => Step::Unclear,
    }
}
