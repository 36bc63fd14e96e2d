// The lines that bring a list. `start` and `connect` tell what such a line is; its list is read apart from that, by
// `session` and `outcome` here and by history_lists, so that a line without one carries none.
ghost use Rattle.std.specs.Prelude.{◌≡◌};
ghost use Rattle.link.specs.Rules.{unknown_features};
ghost use Rattle.history_items.specs.Items.{items_of};
ghost use Rattle.history_calls.specs.Bringing.{start_line, connect_line, no_session, no_outcome, is_of, session_of, outcome_of};

use super::{Line, plain};
use history_items::rest;
use link::{FeatureSupport, Features, Session};
use obd2::call::Call;
use rounds::{Kind, Outcome};

// SETTINGS, and the PROFILEs, which are left unread
#[tactic(auto, unfolding(crate::specs::Bringing::start_line))]
pub fn start(time: u64, rest: &[u8]) -> Option<Line>
    ensures { result ≡ start_line time (items_of 32 rest.now) }
{
    let settings = history_wishes::settings(rest::first(rest))?;
    Some(Line::Start { time, settings })
}

// 0, or 1 and what is known of the dongle, which is left unread
#[tactic(auto, unfolding(crate::specs::Bringing::connect_line))]
pub fn connect(time: u64, rest: &[u8]) -> Option<Line>
    ensures { result ≡ connect_line time (items_of 32 rest.now) }
{
    let made = history_numbers::flag(rest::first(rest))?;
    if made {
        return Some(Line::Connect { time });
    }
    plain::alone(time, Call::ConnectFailed, rest::behind(rest))
}

fn unknown() -> Features
    ensures { result ≡ unknown_features }
{
    Features {
        multi: FeatureSupport::Unknown,
    }
}

// What is known of a dongle that no connection was made to.
#[tactic(auto, unfolding(crate::specs::Bringing::no_session, history_session::specs::Session::none_known))]
pub fn no_session() -> Session
    ensures { result ≡ no_session }
{
    let ranges = link::no_ranges();
    Session {
        features: unknown(),
        ranges,
        known: [false; 256],
    }
}

// The outcome of a query that taught nothing.
#[tactic(auto, unfolding(crate::specs::Bringing::no_outcome))]
pub fn no_outcome() -> Outcome
    ensures { result ≡ no_outcome }
{
    let learnt = history_dongle::nothing_learnt();
    Outcome {
        kind: Kind::Replied,
        features: unknown(),
        learnt,
    }
}

// KNOWN STATE and eight RANGEs; a list with a bad token is none.
#[tactic(auto, unfolding(crate::specs::Bringing::session_of))]
pub fn session(rest: &[u8]) -> Option<Session>
    ensures { result ≡ session_of (items_of 32 rest.now) }
{
    let second = rest::behind(rest);
    let known = history_session::known(rest::first(rest))?;
    let multi = history_session::state(rest::first(second))?;
    let ranges = history_dongle::ranges(rest::behind(second))?;
    Some(Session {
        features: Features { multi },
        ranges,
        known,
    })
}

// Whether a result teaches of as many PIDs as it has to. Where none is due, the box refuses it.
#[tactic(auto, unfolding(crate::specs::Bringing::is_of))]
fn is_of(due: bool, asked: usize, count: usize) -> bool
    ensures { result ≡ is_of due asked count }
{
    if due {
        return count == asked;
    }
    true
}

// KIND STATE LEARNT.. `due` says whether a result is due, and `asked` how many PIDs its query has.
#[tactic(auto, unfolding(crate::specs::Bringing::outcome_of))]
pub fn outcome(rest: &[u8], due: bool, asked: usize) -> Option<Outcome>
    ensures { result ≡ outcome_of due asked (items_of 32 rest.now) }
{
    let second = rest::behind(rest);
    let kind = history_session::kind(rest::first(rest))?;
    let multi = history_session::state(rest::first(second))?;
    let read = history_dongle::learnt(rest::behind(second))?;
    if !is_of(due, asked, read.count) {
        return None;
    }
    let learnt = read.learnt;
    Some(Outcome {
        kind,
        features: Features { multi },
        learnt,
    })
}
