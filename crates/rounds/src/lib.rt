// The steps of a round: `next` asks or ends, `result` brings what the dongle answered.
#![tactic(auto)]

use link::Features;
use poller::Poller;
use poller::rest::Core;

// what a round asks next, and its end
pub mod next;
// what a result teaches and ends
pub mod result;

// What `next` answers: the query that is now due, or the round's end with its request count.
#[derive(Clone, Copy)]
pub enum Step {
    Ask,
    End(u32),
}

// What a step leaves beside the lent arrays, and what it is.
#[derive(Clone, Copy)]
pub struct Moved {
    pub core: Core,
    pub step: Step,
}

#[derive(Clone, Copy)]
pub struct Stepped {
    pub poller: Poller,
    pub step: Step,
}

// How a query came out. A timeout leaves the connection standing.
#[derive(Clone, Copy)]
pub enum Kind {
    Replied,
    TimedOut,
    Lost,
}

// What a result tells of a PID: its ECU count, 0 for none, and whether its length is known.
#[derive(Clone, Copy)]
pub struct Learnt {
    pub ecu: u8,
    pub known: bool,
}

// A result: one `Learnt` for each PID of the query, in its order.
#[derive(Clone, Copy)]
pub struct Outcome {
    pub kind: Kind,
    pub features: Features,
    pub learnt: [Learnt; 6],
}

// What is known of every PID: the ECU count kept, and whether its length is known.
#[derive(Clone, Copy)]
pub struct Lessons {
    pub counts: [u8; 256],
    pub known: [bool; 256],
}
