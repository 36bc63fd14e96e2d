// How a client's wait ends: collect and give up (the Rust's get_cached_value from where it blocks).
#![tactic(auto)]

pub mod ending;

use desk::Desk;

// The reading's PID, and the wait since the ask: what Consumed names. The lengths are those of the lines at the
// start of the lent area.
#[derive(Clone, Copy)]
pub struct Collected {
    pub desk: Desk,
    pub refusal: u8,
    pub pid: u8,
    pub wait: u64,
    // An array with its count, since the box runs in fixed memory.
    pub lines: u8,
    pub lengths: [u8; reply::MAX_LINES],
}

// The answer is NO DATA, unless the call is refused.
#[derive(Clone, Copy)]
pub struct GivenUp {
    pub desk: Desk,
    pub refusal: u8,
}
