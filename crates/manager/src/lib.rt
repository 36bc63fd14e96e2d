// The manager: which PIDs are polled, and how. Each call does its event, and then maintenance if it is due.
#![tactic(auto)]

pub mod rows;

ghost use Rattle.std.specs.Prelude.{◌≡◌};
ghost use Rattle.manager.specs.Calls.{due_of};

use control::outbox::Outbox;
use pid_table::{PidInfo, WaitDuration};
use report::Report;
use report::metrics::CacheMetrics;

#[derive(Clone, Copy)]
pub struct Manager {
    // pid_info, by PID
    pub table: [PidInfo; 256],
    pub metrics: CacheMetrics,
    // last_maintenance, or the start
    pub last: u64,
}

// What a call tells the manager (the Rust's CacheManagerMessage). Register, leave and response are no events here, as
// tick is none: they only let it do maintenance. Nothing is an event among the others, as each call has one.
#[derive(Clone, Copy)]
pub enum Event {
    ProfilePidsChanged,
    Waiting(u8),
    Consumed(u8, WaitDuration),
    Nothing,
}

// What an event leaves and sends.
#[derive(Clone, Copy)]
pub struct Noted {
    pub manager: Manager,
    pub outbox: Outbox,
}

// What a call leaves, sends and reports.
#[derive(Clone, Copy)]
pub struct Answer {
    pub manager: Manager,
    pub outbox: Outbox,
    pub report: Report,
}

fn due(last: u64, now: u64) -> bool
    ensures { result ≡ due_of last now }
{
    2000 <= base::elapsed(last, now)
}
