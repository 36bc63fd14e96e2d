// The control messages by which the manager tells the poller what to poll.
#![tactic(auto)]

pub mod outbox;

use config::PidPriority;

// The Rust's DongleMessage.
#[derive(Clone, Copy)]
pub enum DongleMessage {
    SetPidPriority(u8, PidPriority),
    RemovePid(u8),
}
