// Control messages, the connection, and a round's begin: the box takes these calls when no round is open.
ghost use Rattle.std.specs.Prelude.{◌≡◌, ℕ, List, length};
ghost use Rattle.link.specs.Ranges.{replies_in, replies_of, no_replies, replies_by};
ghost use Rattle.poller.specs.Core.{Held, held, with_polled, with_connection, with_ranges, polled_rows, known_rows, poller_of, tried_in, looked_in};
ghost use Rattle.poller.specs.Calls.{applied_of, apply_of, connect_of, fail_of, reconnect_of, multi_allowed, begin_of};

use super::rest::{COUNTS, Core, FAST, KNOWN, LENGTHS, Looked, ORDER, POLLED, SLOW, Tried};
use super::{Lists, Phase, rest};
use config::{PidPriority, Settings};
use control::DongleMessage;
use link::Session;
use link::ranges::{RANGE_ROW, RANGES};
use pid_list::PidList;

// The two lists after a control message: the PID out of both, and at the end of its own.
#[tactic(auto, unfolding(crate::specs::Calls::applied_of))]
fn applied(fast: PidList, slow: PidList, m: DongleMessage) -> Lists
    ensures { result ≡ applied_of fast slow m }
{
    match m {
        DongleMessage::SetPidPriority(pid, priority) => match priority {
            PidPriority::Fast => {
                let f = pid_list::set(fast, pid);
                let s = pid_list::remove(slow, pid);
                Lists { fast: f, slow: s }
            }
            PidPriority::Slow => {
                let f = pid_list::remove(fast, pid);
                let s = pid_list::set(slow, pid);
                Lists { fast: f, slow: s }
            }
        },
        DongleMessage::RemovePid(pid) => {
            let f = pid_list::remove(fast, pid);
            let s = pid_list::remove(slow, pid);
            Lists { fast: f, slow: s }
        }
    }
}

// A control message is applied to both lists.
pub fn apply(polled: &mut [[u8; 256]; POLLED], mut p: Core, m: DongleMessage) -> Core
    requires { length polled.old ≡ polled_rows }
    ensures polled_len { length polled.new ≡ polled_rows }
    ensures result_after { (x : Held) → poller_of (with_polled x polled.new) result ≡ apply_of (poller_of (with_polled x polled.old) p) m }
{
    let had = rest::fast(polled, p.fast);
    let others = rest::slow(polled, p.slow);
    let lists = applied(had, others, m);
    let f = lists.fast;
    let s = lists.slow;
    let fpids = f.pids;
    polled[FAST] = fpids;
    let spids = s.pids;
    polled[SLOW] = spids;
    p.fast = rest::ends_of(f);
    p.slow = rest::ends_of(s);
    p
}

// A connection was made.
pub fn connect(
    known: &mut [[bool; 256]; KNOWN],
    ranges: &mut [[u8; RANGE_ROW]; RANGES],
    mut p: Core,
    s: Session,
) -> Tried
    requires { length known.old ≡ known_rows }
    ensures known_len { length known.new ≡ known_rows }
    ensures result_after { (x : Held) → tried_in (with_connection x known.new ranges.new) result ≡ connect_of (poller_of (with_connection x known.old ranges.old) p) s }
    ensures behind { replies_in ranges.new ≡ replies_by result.said (replies_of s.ranges) (replies_in ranges.old) }
{
    let link = p.link;
    let mut lengths = known[LENGTHS];
    let made = link::rest::connect(&mut lengths, ranges, link, s);
    known[LENGTHS] = lengths;
    p.link = made.core;
    Tried {
        core: p,
        said: made.said,
    }
}

// A connection was tried and not made.
pub fn fail(ranges: &mut [[u8; RANGE_ROW]; RANGES], mut p: Core) -> Tried
    ensures result_after { (x : Held) → tried_in (with_ranges x ranges.new) result ≡ fail_of (poller_of (with_ranges x ranges.old) p) }
    ensures behind { replies_in ranges.new ≡ replies_by result.said no_replies (replies_in ranges.old) }
{
    let link = p.link;
    let tried = link::rest::fail(ranges, link);
    p.link = tried.core;
    Tried {
        core: p,
        said: tried.said,
    }
}

// A reconnect check.
pub fn reconnect(mut p: Core, time: u64) -> Looked
    ensures { (x : Held) → looked_in x result ≡ reconnect_of (poller_of x p) time }
{
    let link = p.link;
    let checked = link::rest::reconnect(link, time);
    p.link = checked.core;
    Looked {
        core: p,
        yes: checked.yes,
    }
}

// Whether a round may ask several PIDs together.
fn multi_allowed(switch: bool, denied: bool) -> bool
    ensures { result ≡ multi_allowed switch denied }
{
    switch && !denied
}

// A round is opened with the settings of now, and keeps whether its fast list is empty. Without a connection it has nothing to ask.
pub fn begin(
    polled: &mut [[u8; 256]; POLLED],
    known: &mut [[bool; 256]; KNOWN],
    order: &mut [u8; ORDER],
    mut p: Core,
    settings: Settings,
) -> Core
    requires polled_len { length polled.old ≡ polled_rows }
    requires known_len { length known.old ≡ known_rows }
    ensures polled_len_2 { length polled.new ≡ polled_rows }
    ensures known_len_2 { length known.new ≡ known_rows }
    ensures by_index { (ranges : List (List ℕ)) → poller_of (held polled.new known.new order.new ranges) result ≡ begin_of (poller_of (held polled.old known.old order.old ranges) p) settings }
{
    p.settings = settings;
    let nofast = p.fast.len == 0;
    let link = p.link;
    if !link.connected {
        p.round = super::opened(Phase::Over, nofast);
        return p;
    }
    let features = link.features;
    let denied = link::refuses(features);
    if multi_allowed(settings.multi, denied) {
        let had = rest::fast(polled, p.fast);
        let others = rest::slow(polled, p.slow);
        let counts = polled[COUNTS];
        let lengths = known[LENGTHS];
        let plan = plan::make(had, others, counts, lengths, settings.maxpids);
        p.plan = rest::keep(polled, known, order, plan);
        p.round = super::opened(Phase::Multi, nofast);
        return p;
    }
    p.round = super::opened(Phase::First, nofast);
    p
}
