// The 17 calls of the box, connect in its two outcomes.
use config::{Profiles, Settings};
use link::Session;
use pid_table::WaitDuration;
use reply::Response;
use rounds::Outcome;

// A call with its numbers: a client's number, a PID, a wait, settings. Beside it go its time, the lists that it
// brings (`Brought`), and what is lent: the bytes of a command, and the area that an ask and a collect fill.
#[derive(Clone, Copy)]
pub enum Call {
    Register,
    Leave(u32),
    Ask(u32),
    Collect(u32),
    GiveUp(u32),
    Response,
    ProfilePidsChanged,
    Waiting(u8),
    Consumed(u8, WaitDuration),
    Tick,
    SetSettings(Settings),
    TakeControl,
    Connect,
    ConnectFailed,
    ReconnectCheck,
    Begin,
    Next,
    Result,
}

// What a call of the same name brings; the others leave it unread.
#[derive(Clone, Copy)]
pub struct Brought {
    pub profiles: Profiles,
    pub response: Response,
    pub session: Session,
    pub outcome: Outcome,
}
