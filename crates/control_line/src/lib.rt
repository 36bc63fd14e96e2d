// The control line: the messages that the manager has sent and the poller has not taken yet, in 1,024 places
// that are reused (the Rust's channel between the two tasks).
#![tactic(auto)]

pub mod places;

ghost use Rattle.std.specs.Prelude.{◌≡◌, min};
ghost use Rattle.control_line.specs.Ring.{free_of};

use control::DongleMessage;

// `count` messages from the place `head` on, behind the last place from the first. A count above 1,024 counts
// as 1,024. A ring of places, since the box runs in fixed memory.
#[derive(Clone, Copy)]
pub struct ControlLine {
    pub slots: [DongleMessage; 1024],
    pub head: u16,
    pub count: u16,
}

// What is left of a line, and the message that was its first.
#[derive(Clone, Copy)]
pub struct Shorter {
    pub line: ControlLine,
    pub taken: Option<DongleMessage>,
}

// How many messages there is room for.
#[tactic(auto, unfolding(crate::specs::Ring::free_of))]
pub fn free(count: u16) -> u16
    ensures { result ≡ free_of count }
{
    1024u16.saturating_sub(count)
}

// How many messages an outbox of 257 places holds.
fn held(count: u16) -> usize
    ensures { result ≡ min count 257 }
{
    257.min(count as usize)
}
