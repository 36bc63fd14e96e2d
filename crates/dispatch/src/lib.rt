// One function for every call of the box: what runs is what the histories of demand 3 speak of.
#![tactic(auto)]

ghost use Rattle.std.specs.Prelude.{◌≡◌};
ghost use Rattle.link.specs.Ranges.{replies_in};
ghost use Rattle.obd2.specs.Behind.{behind_by};
ghost use Rattle.obd2.specs.Core.{lent, box_of, answered_of};
ghost use Rattle.obd2.specs.History.{step};
ghost use Rattle.poller.specs.Core.{held};
ghost use Rattle.dispatch.specs.Dispatch.{Whole, Quiet, call_of, area_of, Promised};

use clients::PLACES;
use link::ranges::{RANGE_ROW, RANGES};
use manager::Event;
use obd2::call::{Brought, Call};
use obd2::rest::{Core, Told};
use obd2::{answers, telling};
use poller::rest::{KNOWN, ORDER, POLLED};
use refusal::Refusal;
use reply::rows::ROW;

// Applies one call, at a time, to the box: the one place that tests the time. Only this function has all of the box's arrays;
// each call's own is lent those that it works on. What the call does not bring or is not lent is left unread.
pub fn call(
    replies: &mut [[u8; ROW]; 256],
    marks: &mut [[bool; 256]; PLACES],
    table: &mut [[u64; 8]; 256],
    slots: &mut [[u8; 2]; control_line::places::PLACES],
    polled: &mut [[u8; 256]; POLLED],
    known: &mut [[bool; 256]; KNOWN],
    order: &mut [u8; ORDER],
    ranges: &mut [[u8; RANGE_ROW]; RANGES],
    pids: &mut [u8; 256],
    rates: &mut [f32; 256],
    core: Core,
    time: u64,
    call: Call,
    brought: Brought,
    cmd: &[u8],
    area: &mut [u8],
) -> Told
    requires { Whole (lent replies.old marks.old table.old slots.old (held polled.old known.old order.old ranges.old) pids.old rates.old) }
    ensures whole { Whole (lent replies.new marks.new table.new slots.new (held polled.new known.new order.new ranges.new) pids.new rates.new) }
    ensures quiet { Quiet (lent replies.old marks.old table.old slots.old (held polled.old known.old order.old ranges.old) pids.old rates.old) (lent replies.new marks.new table.new slots.new (held polled.new known.new order.new ranges.new) pids.new rates.new) result }
    ensures result_after { answered_of (lent replies.new marks.new table.new slots.new (held polled.new known.new order.new ranges.new) pids.new rates.new) result ≡ step (box_of (lent replies.old marks.old table.old slots.old (held polled.old known.old order.old ranges.old) pids.old rates.old) core) (call_of time call brought cmd.now area.old) }
    ensures area_after { area.new ≡ area_of (box_of (lent replies.old marks.old table.old slots.old (held polled.old known.old order.old ranges.old) pids.old rates.old) core) time call brought cmd.now area.old }
    ensures promised { Promised (box_of (lent replies.old marks.old table.old slots.old (held polled.old known.old order.old ranges.old) pids.old rates.old) core) (call_of time call brought cmd.now area.old) (answered_of (lent replies.new marks.new table.new slots.new (held polled.new known.new order.new ranges.new) pids.new rates.new) result) }
    ensures behind { replies_in ranges.new ≡ behind_by (call_of time call brought cmd.now area.old) result.answer (replies_in ranges.old) }
{
    if answers::bad_time(core.time, time) {
        return telling::refuse(core, Refusal::BadTime);
    }
    match call {
        Call::Register => { desk_calls::register(marks, table, slots, pids, rates, core, time) }
        Call::Leave(number) => {
            desk_calls::leave(marks, table, slots, pids, rates, core, time, number)
        }
        Call::Ask(number) => cache_calls::ask(
            replies, marks, ranges, core, time, number, cmd, area,
        ),
        Call::Collect(number) => { cache_calls::collect(replies, marks, core, time, number, area) }
        Call::GiveUp(number) => cache_calls::give_up(core, time, number),
        Call::Response => desk_calls::response(
            replies,
            marks,
            table,
            slots,
            pids,
            rates,
            core,
            time,
            brought.response,
        ),
        Call::ProfilePidsChanged => manager_calls::profile_pids_changed(
            table,
            slots,
            pids,
            rates,
            core,
            time,
            brought.profiles,
        ),
        Call::Waiting(pid) => manager_calls::tell(
            table,
            slots,
            pids,
            rates,
            core,
            time,
            core.profiles,
            Event::Waiting(pid),
        ),
        Call::Consumed(pid, wait) => {
            manager_calls::consumed(table, slots, pids, rates, core, time, pid, wait)
        }
        Call::Tick => manager_calls::tell(
            table,
            slots,
            pids,
            rates,
            core,
            time,
            core.profiles,
            Event::Nothing,
        ),
        Call::SetSettings(settings) => setup_calls::set_settings(core, time, settings),
        Call::TakeControl => poller_calls::take_control(slots, polled, core, time),
        Call::Connect => link_calls::connect(known, ranges, core, time, brought.session),
        Call::ConnectFailed => link_calls::connect_failed(ranges, core, time),
        Call::ReconnectCheck => link_calls::reconnect_check(core, time),
        Call::Begin => round_calls::begin(polled, known, order, core, time),
        Call::Next => round_calls::next(polled, known, order, core, time),
        Call::Result => round_calls::result(polled, known, ranges, core, time, brought.outcome),
    }
}
