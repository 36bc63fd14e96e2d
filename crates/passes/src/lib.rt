// What goes over the whole table: registering the profiles, and the parts of maintenance. Each is a pass
// from PID 0 to PID 255 that changes every entry by itself and tells the poller of each change of speed.
#![tactic(auto)]

pub mod rows;
pub mod wishes;

ghost use Rattle.std.specs.Prelude.{◌≡◌};
ghost use Rattle.passes.specs.Wishes.{counts_of};

use config::{Profiles, Settings};
use control::outbox::Outbox;
use pid_table::PidInfo;

// The table, and what is to be sent because of its changes.
#[derive(Clone, Copy)]
pub struct Ledger {
    pub table: [PidInfo; 256],
    pub outbox: Outbox,
}

// What a pass goes by.
#[derive(Clone, Copy)]
pub struct Terms {
    pub profiles: Profiles,
    pub settings: Settings,
    pub now: u64,
}

// A value and no closure, since the laws go over lists of passes.
#[derive(Clone, Copy)]
pub enum Pass {
    Register,
    Demote,
    Remove,
    Clear,
}

// Whether a profile of this kind is in force: a triggered one only when it is enabled.
#[tactic(auto, unfolding(crate::specs::Wishes::counts_of))]
fn counts(kind: u8, enabled: bool) -> bool
    ensures { result ≡ counts_of kind enabled }
{
    if kind == 2 { enabled } else { kind < 2 }
}
