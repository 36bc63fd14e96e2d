// The box's calls of the connection: whether a reconnect may be tried, and how it went. The time is not tested
// here: `dispatch::call` does that before, and is the box's door.
#![tactic(auto)]

ghost use Rattle.std.specs.Prelude.{◌≡◌, length};
ghost use Rattle.base.specs.Each.{some_of};
ghost use Rattle.link.specs.Ranges.{replies_in};
ghost use Rattle.obd2.specs.Behind.{behind_by};
ghost use Rattle.obd2.specs.Call.{reconnect_check, connect, connect_failed};
ghost use Rattle.obd2.specs.Core.{Lent, with_poller, box_of, answered_of};
ghost use Rattle.obd2.specs.Answers.{Answers};
ghost use Rattle.obd2.specs.Refusals.{over_range};
ghost use Rattle.poller.specs.Core.{with_connection, with_ranges, known_rows};

use link::Session;
use link::ranges::{RANGE_ROW, RANGES};
use obd2::rest::{Core, Told};
use obd2::{Said, telling};
use poller::rest::KNOWN;
use refusal::Refusal;
use reply::Reply;

// Whether a reconnect may be tried.
pub fn reconnect_check(mut core: Core, time: u64) -> Told
    ensures { (x : Lent) → Answers (box_of x core) (reconnect_check time) (answered_of x result) }
{
    let poller = core.poller;
    let round = poller.round;
    if poller::open(round) {
        return telling::refuse(core, Refusal::RoundOpen);
    }
    let checked = poller::calls::reconnect(poller, time);
    let noted = checked.core;
    core.poller = noted;
    let notes = telling::no_notes();
    telling::accept(core, time, Said::Check(checked.yes), notes)
}

// Whether a range's reply is over the limits. One that is absent is not.
#[tactic(auto, unfolding(obd2::specs::Refusals::over_range))]
fn over_range(range: Option<Reply>) -> bool
    ensures { result ≡ over_range range }
{
    match range {
        Some(reply) => !reply::within(reply),
        None => false,
    }
}

// Whether one of the eight ranges' replies is over the limits.
fn any_over(ranges: [Option<Reply>; 8]) -> bool
    ensures { result ≡ some_of over_range ranges }
{
    for range in &ranges {
        if over_range(*range) {
            return true;
        }
    }
    false
}

// A connection was made, and hands in what the dongle told.
pub fn connect(
    known: &mut [[bool; 256]; KNOWN],
    ranges: &mut [[u8; RANGE_ROW]; RANGES],
    mut core: Core,
    time: u64,
    session: Session,
) -> Told
    requires { length known.old ≡ known_rows }
    ensures known_len { length known.new ≡ known_rows }
    ensures answers { (x : Lent) → Answers (box_of (with_poller x (with_connection x.polling known.old ranges.old)) core) (connect time session) (answered_of (with_poller x (with_connection x.polling known.new ranges.new)) result) }
    ensures behind { replies_in ranges.new ≡ behind_by (connect time session) result.answer (replies_in ranges.old) }
{
    let told = session.ranges;
    if any_over(told) {
        return telling::refuse(core, Refusal::BadResponse);
    }
    let poller = core.poller;
    let round = poller.round;
    if poller::open(round) {
        return telling::refuse(core, Refusal::RoundOpen);
    }
    let linked = poller::calls::connect(known, ranges, poller, session);
    let joined = linked.core;
    core.poller = joined;
    let said = linked.said;
    let notes = telling::no_notes();
    telling::accept(core, time, Said::Connecting(said), notes)
}

// A connection was tried and not made.
pub fn connect_failed(ranges: &mut [[u8; RANGE_ROW]; RANGES], mut core: Core, time: u64) -> Told
    ensures answers { (x : Lent) → Answers (box_of (with_poller x (with_ranges x.polling ranges.old)) core) (connect_failed time) (answered_of (with_poller x (with_ranges x.polling ranges.new)) result) }
    ensures behind { replies_in ranges.new ≡ behind_by (connect_failed time) result.answer (replies_in ranges.old) }
{
    let poller = core.poller;
    let round = poller.round;
    if poller::open(round) {
        return telling::refuse(core, Refusal::RoundOpen);
    }
    let tried = poller::calls::fail(ranges, poller);
    let cleared = tried.core;
    core.poller = cleared;
    let said = tried.said;
    let notes = telling::no_notes();
    telling::accept(core, time, Said::Connecting(said), notes)
}
