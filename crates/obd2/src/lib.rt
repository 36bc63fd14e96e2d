// The joined box: desk, manager, control line and poller, as one state by value. ("Box" is document 01's word
// for the whole of them, "desk" for the side that serves clients.)
#![tactic(auto)]

use config::{Profiles, Settings};
use control::DongleMessage;
use control_line::ControlLine;
use desk::Desk;
use link::Connecting;
use manager::Manager;
use poller::{Poller, Query};
use refusal::Refusal;
use report::Report;
use rounds::Step;

// what the calls of all sides share: times that are refused, room on the line, answers put together
pub mod answers;
// a call as a value
pub mod call;
// the box as it is held, its arrays lent, and answers over it put together
pub mod rest;
pub mod telling;

#[derive(Clone, Copy)]
pub struct State {
    pub desk: Desk,
    pub manager: Manager,
    pub poller: Poller,
    pub line: ControlLine,
    pub profiles: Profiles,
    pub settings: Settings,
    // the last accepted time
    pub time: u64,
}

// What a call answers.
pub type Answer = Result<Said, Refusal>;

// What an accepted call says, in the words of the side that it is of. An answer that hands out bytes has them in the lent
// area, and the lines' lengths in `Details`.
#[derive(Clone, Copy)]
pub enum Said {
    Started,
    // a new client's number
    Client(u32),
    Done,
    Asked(cache::Answer),
    // a reading of the PID and the wait since the ask; names Consumed with it
    Collected(u8, u64),
    // NO DATA
    GivenUp,
    Taken(Option<DongleMessage>),
    Connecting(Connecting),
    // whether a reconnect may be tried
    Check(bool),
    // a query, which stands in `Details`, or the round's end
    Step(Step),
}

// What stands beside an answer: a reply's lines, the values and notices of a response, a query, a report.
#[derive(Clone, Copy)]
pub struct Details {
    pub lines: u8,
    pub lengths: [u8; 8],
    pub values: [u32; 6],
    pub notices: [bool; 6],
    pub query: Query,
    pub report: Report,
}

#[derive(Clone, Copy)]
pub struct Answered {
    pub state: State,
    pub answer: Answer,
    pub details: Details,
}
