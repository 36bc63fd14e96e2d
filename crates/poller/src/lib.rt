// The poller's state, the Rust's PollingState, and the calls that the box takes when no round is open. The steps of a
// round are in `rounds`.
#![tactic(auto)]

ghost use Rattle.std.specs.Prelude.{◌≡◌};
ghost use Rattle.poller.specs.State.{opened_round, closed_round, no_query, open_of, due_of};

use config::Settings;
use link::{Connecting, Link};
use pid_list::PidList;
use plan::Plan;

// control messages, the connection, and a round's begin; what goes by value of a poller whose arrays are lent
pub mod calls;
pub mod rest;

// A query: the first `count` of `pids`, and the ECU count kept for them, 0 for none. An array with its count, since the box runs in
// fixed memory.
#[derive(Clone, Copy)]
pub struct Query {
    pub pids: [u8; 6],
    pub count: usize,
    pub ecu: u8,
}

// Where a round is. A result is due in the three phases so named.
#[derive(Clone, Copy)]
pub enum Phase {
    // no round is open
    Closed,
    // single: nothing asked yet
    First,
    FastDue,
    // single: the fast result has come, the slow test is next
    Test,
    SlowDue,
    // multi: the next chunk of the plan is next
    Multi,
    MultiDue,
    // nothing more is asked
    Over,
}

// A round: its phase, whether its fast list was empty at begin, how many queries it has issued, and the query whose result is due.
#[derive(Clone, Copy)]
pub struct Round {
    pub phase: Phase,
    pub nofast: bool,
    pub issued: u32,
    pub due: Query,
}

#[derive(Clone, Copy)]
pub struct Poller {
    pub fast: PidList,
    pub slow: PidList,
    // last_slow_poll: the last slow poll, or the start
    pub clock: u64,
    // fast_requests_since_slow
    pub requests: u32,
    // the ECU count kept for each PID, 0 for none
    pub counts: [u8; 256],
    pub link: Link,
    // what the open round's begin found
    pub settings: Settings,
    pub plan: Plan,
    pub round: Round,
}

// The poller after an outcome of connecting, and what the link says to it.
#[derive(Clone, Copy)]
pub struct Linked {
    pub poller: Poller,
    pub said: Connecting,
}

// The poller after a reconnect check, and whether one may be tried.
#[derive(Clone, Copy)]
pub struct Checked {
    pub poller: Poller,
    pub yes: bool,
}

#[derive(Clone, Copy)]
pub struct Lists {
    pub fast: PidList,
    pub slow: PidList,
}

// The query when none is due.
pub fn no_query() -> Query
    ensures { result ≡ no_query }
{
    Query {
        pids: [0u8; 6],
        count: 0,
        ecu: 0,
    }
}

// A round that has asked nothing yet.
fn opened(phase: Phase, nofast: bool) -> Round
    ensures { result ≡ opened_round phase nofast }
{
    Round {
        phase,
        nofast,
        issued: 0,
        due: no_query(),
    }
}

// The round when none is open.
pub fn closed() -> Round
    ensures { result ≡ closed_round }
{
    opened(Phase::Closed, false)
}

// Whether a round is open.
pub fn open(r: Round) -> bool
    ensures { result ≡ open_of r.phase }
{
    !matches!(r.phase, Phase::Closed)
}

// Whether a result is due.
pub fn due(r: Round) -> bool
    ensures { result ≡ due_of r.phase }
{
    matches!(r.phase, Phase::FastDue | Phase::SlowDue | Phase::MultiDue)
}
