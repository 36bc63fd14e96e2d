// What the manager knows of a PID (the Rust's PidInfo), and what each event and each part of maintenance
// makes of it. A PID's entry changes only by these functions.
#![tactic(auto)]

pub mod rows;

ghost use Rattle.std.specs.Prelude.{◌≡◌};
ghost use Rattle.control.specs.Outbox.{send_all};
ghost use Rattle.control.specs.Told.{same_speed, message_of, told_of};
ghost use Rattle.pid_table.specs.Entry.{speed, is_fast, promoted_if, waiting_of, promotes_of, consumed_of, registered_of, past_of, loose_of, idle_of, removed_of, demotes_of, demoted_of, cleared_of, nobody};

use config::PidPriority;
use control::DongleMessage;
use control::outbox::Outbox;

// When something last happened, if ever.
pub type LastTime = Option<u64>;

// How long a client waited for a reading; none is a reading that it had from the cache at once.
pub type WaitDuration = Option<u64>;

// What the profiles in force want of a PID, if anything.
pub type Wish = Option<PidPriority>;

#[derive(Clone, Copy)]
pub struct PidInfo {
    // whether the PID is in the table; if not, the other fields have no meaning
    pub tracked: bool,
    pub priority: PidPriority,
    // wanted by a profile: neither demoted nor removed
    pub pinned: bool,
    // request_count, since the last maintenance; in front of the times it saves eight bytes of padding
    pub count: u32,
    // last_waiter_time
    pub waiter: LastTime,
    // last_consumed_time
    pub consumed: LastTime,
}

// The entry of a PID that is not in the table.
pub fn absent() -> PidInfo
    ensures { result ≡ nobody }
{
    PidInfo {
        tracked: false,
        priority: PidPriority::Fast,
        pinned: false,
        waiter: None,
        consumed: None,
        count: 0,
    }
}

#[tactic(auto, unfolding(crate::specs::Entry::is_fast))]
pub fn is_fast(priority: PidPriority) -> bool
    ensures { result ≡ is_fast priority }
{
    matches!(priority, PidPriority::Fast)
}

pub fn promoted_if(test: bool, priority: PidPriority) -> PidPriority
    ensures { result ≡ promoted_if test priority }
{
    if test { PidPriority::Fast } else { priority }
}

// A client waits for the PID.
#[tactic(auto, unfolding(crate::specs::Entry::waiting_of))]
pub fn waiting(mut info: PidInfo, mode: u8, now: u64) -> PidInfo
    ensures { result ≡ waiting_of mode now info }
{
    if !info.tracked {
        return PidInfo {
            tracked: true,
            waiter: Some(now),
            ..absent()
        };
    }
    info.priority = promoted_if(mode == 0, info.priority);
    info.waiter = Some(now);
    info
}

// Whether a reading consumed so promotes a slow PID.
#[tactic(auto, unfolding(crate::specs::Entry::promotes_of))]
pub fn promotes(mode: u8, threshold: u64, wait: WaitDuration) -> bool
    ensures { result ≡ promotes_of mode threshold wait }
{
    wait.is_some_and(|time| mode != 0 && threshold <= time)
}

// A client consumed a reading of the PID.
#[tactic(auto, unfolding(crate::specs::Entry::consumed_of))]
pub fn consumed(mut info: PidInfo, promotes: bool, now: u64) -> PidInfo
    ensures { result ≡ consumed_of promotes now info }
{
    if info.tracked {
        info.priority = promoted_if(promotes, info.priority);
        info.consumed = Some(now);
        info.count = base::more(info.count);
    }
    info
}

// The profiles in force want this of the PID.
#[tactic(auto, unfolding(crate::specs::Entry::registered_of))]
pub fn registered(mut info: PidInfo, wish: Wish, now: u64) -> PidInfo
    ensures { result ≡ registered_of wish now info }
{
    let Some(wanted) = wish else {
        info.pinned = false;
        return info;
    };
    if !info.tracked {
        return PidInfo {
            tracked: true,
            priority: wanted,
            pinned: true,
            consumed: Some(now),
            ..absent()
        };
    }
    info.priority = promoted_if(is_fast(wanted), info.priority);
    info.pinned = true;
    info
}

// Never, or more than `limit` before `now`. A time after `now` is 0 before it.
#[tactic(auto, unfolding(crate::specs::Entry::past_of))]
fn past(last: LastTime, limit: u64, now: u64) -> bool
    ensures { result ≡ past_of last limit now }
{
    last.is_none_or(|time| limit < base::elapsed(time, now))
}

// Tracked, and no profile holds it.
#[tactic(auto, unfolding(crate::specs::Entry::loose_of))]
fn loose(info: PidInfo) -> bool
    ensures { result ≡ loose_of info }
{
    info.tracked && !info.pinned
}

// To be removed.
#[tactic(auto, unfolding(crate::specs::Entry::idle_of))]
fn idle(info: PidInfo, removal: u64, now: u64) -> bool
    ensures { result ≡ idle_of removal now info }
{
    loose(info) && past(info.waiter, removal, now) && past(info.consumed, removal, now)
}

#[tactic(auto, unfolding(crate::specs::Entry::removed_of))]
pub fn removed(info: PidInfo, limit: u64, now: u64) -> PidInfo
    ensures { result ≡ removed_of limit now info }
{
    if idle(info, limit, now) {
        absent()
    } else {
        info
    }
}

// To be demoted: fast, not to be removed, and without a waiter for longer than `limit`.
#[tactic(auto, unfolding(crate::specs::Entry::demotes_of))]
fn demotes(info: PidInfo, limit: u64, removal: u64, now: u64) -> bool
    ensures { result ≡ demotes_of limit removal now info }
{
    !idle(info, removal, now)
        && loose(info)
        && is_fast(info.priority)
        && past(info.waiter, limit, now)
}

#[tactic(auto, unfolding(crate::specs::Entry::demoted_of))]
pub fn demoted(mut info: PidInfo, limit: u64, removal: u64, now: u64) -> PidInfo
    ensures { result ≡ demoted_of limit removal now info }
{
    if demotes(info, limit, removal, now) {
        info.priority = PidPriority::Slow;
    }
    info
}

// The count starts anew.
#[tactic(auto, unfolding(crate::specs::Entry::cleared_of))]
pub fn cleared(mut info: PidInfo) -> PidInfo
    ensures { result ≡ cleared_of info }
{
    info.count = 0;
    info
}

// Whether the poller polls the PID in the same way by both entries.
pub fn same_speed(before: PidInfo, after: PidInfo) -> bool
    ensures { result ≡ same_speed (speed before) (speed after) }
{
    if !before.tracked || !after.tracked {
        return before.tracked == after.tracked;
    }
    is_fast(before.priority) == is_fast(after.priority)
}

// What the poller is to be told of the PID.
#[tactic(auto, unfolding(crate::specs::Entry::speed))]
fn message(pid: u8, info: PidInfo) -> DongleMessage
    ensures { result ≡ message_of pid (speed info) }
{
    if info.tracked {
        DongleMessage::SetPidPriority(pid, info.priority)
    } else {
        DongleMessage::RemovePid(pid)
    }
}

// One message where the PID's speed changed, else none.
#[tactic(auto, using(control::specs::Outbox::send_one, control::specs::Outbox::send_none), unfolding(control::specs::Told::told_of))]
pub fn told(outbox: Outbox, pid: u8, before: PidInfo, after: PidInfo) -> Outbox
    ensures { result ≡ send_all outbox (told_of pid (speed before) (speed after)) }
{
    if same_speed(before, after) {
        outbox
    } else {
        control::outbox::push(outbox, message(pid, after))
    }
}
