// The box as one value: its start, and any call. The arrays are made out of the value, lent to the call, and put together
// again, so that a host which wants nothing but a value has the same answers. A host that lends the arrays saves the copies.
#![tactic(auto)]

ghost use Rattle.std.specs.Prelude.{◌≡◌, []};
ghost use Rattle.by_value.specs.Parts.{desk_core, link_core, poller_core, polled_in, known_in, core_of};
ghost use Rattle.desk.specs.Core.{desk_of};
ghost use Rattle.dispatch.specs.Dispatch.{call_of, area_of, Promised};
ghost use Rattle.obd2.specs.Answer.{answered_in};
ghost use Rattle.obd2.specs.Answers.{PromisedStart};
ghost use Rattle.obd2.specs.Core.{lent, box_of, details_of, answered_of};
ghost use Rattle.obd2.specs.History.{start_of, step};
ghost use Rattle.poller.specs.Core.{held, poller_of};

use clients::PLACES;
use config::{Profiles, Settings};
use control_line::ControlLine;
use control_line::places::Ends;
use desk::Desk;
use link::Link;
use link::ranges::{RANGE_ROW, RANGES};
use manager::Manager;
use obd2::call::{Brought, Call};
use obd2::rest::{Core, Notes, Told};
use obd2::{Answered, Details, State};
use poller::Poller;
use poller::rest::{COUNTS, KNOWN, LENGTHS, ORDER, POLLED};
use reply::rows::ROW;

// The desk but for its replies and marks.
fn desk_core(desk: Desk) -> desk::rest::Core
    ensures { result ≡ desk_core desk }
{
    desk::rest::Core {
        clients: clients::seats::seats_of(desk.clients),
        given: desk.given,
        revs: desk.revs,
    }
}

// The connection but for its arrays.
fn link_core(link: Link) -> link::rest::Core
    ensures { result ≡ link_core link }
{
    link::rest::Core {
        connected: link.connected,
        features: link.features,
        attempt: link.attempt,
    }
}

// The poller but for its arrays.
fn poller_core(poller: Poller) -> poller::rest::Core
    ensures { result ≡ poller_core poller }
{
    poller::rest::Core {
        fast: poller::rest::ends_of(poller.fast),
        slow: poller::rest::ends_of(poller.slow),
        clock: poller.clock,
        requests: poller.requests,
        link: link_core(poller.link),
        settings: poller.settings,
        plan: poller::rest::course_of(poller.plan),
        round: poller.round,
    }
}

// The poller's rows of PIDs and counts, and its rows of known lengths.
fn polled_of(poller: Poller) -> [[u8; 256]; POLLED]
    ensures { result ≡ polled_in poller }
{
    let fast = poller.fast.pids;
    let slow = poller.slow.pids;
    let counts = poller.counts;
    let fixed = poller.plan.counts;
    [fast, slow, counts, fixed]
}

fn known_of(poller: Poller) -> [[bool; 256]; KNOWN]
    ensures { result ≡ known_in poller }
{
    let lengths = poller.link.known;
    let fixed = poller.plan.known;
    [lengths, fixed]
}

// The box but for its arrays.
fn core_of(state: State) -> Core
    ensures { result ≡ core_of state }
{
    Core {
        desk: desk_core(state.desk),
        manager: manager::rows::Core {
            metrics: state.manager.metrics,
            last: state.manager.last,
        },
        poller: poller_core(state.poller),
        line: Ends {
            head: state.line.head,
            count: state.line.count,
        },
        profiles: state.profiles,
        settings: state.settings,
        time: state.time,
    }
}

// The desk of its arrays and the rest.
fn desk_of(replies: [[u8; ROW]; 256], marks: [[bool; 256]; PLACES], core: desk::rest::Core) -> Desk
    ensures { result ≡ desk_of replies marks core }
{
    Desk {
        clients: clients::seats::clients_of(marks, core.clients),
        store: reply::rows::unpack_all(replies),
        given: core.given,
        revs: core.revs,
    }
}

// The poller of its arrays and the rest.
fn poller_of(
    polled: [[u8; 256]; POLLED],
    known: [[bool; 256]; KNOWN],
    order: [u8; ORDER],
    ranges: [[u8; RANGE_ROW]; RANGES],
    core: poller::rest::Core,
) -> Poller
    ensures { result ≡ poller_of (held polled known order ranges) core }
{
    let link = Link {
        connected: core.link.connected,
        features: core.link.features,
        ranges: link::ranges::unpack_all(ranges),
        known: known[LENGTHS],
        attempt: core.link.attempt,
    };
    Poller {
        fast: poller::rest::fast(&polled, core.fast),
        slow: poller::rest::slow(&polled, core.slow),
        clock: core.clock,
        requests: core.requests,
        counts: polled[COUNTS],
        link,
        settings: core.settings,
        plan: poller::rest::plan(&polled, &known, &order, core.plan),
        round: core.round,
    }
}

// The box of its arrays and the rest. The report's arrays are no part of it.
fn state_of(
    replies: [[u8; ROW]; 256],
    marks: [[bool; 256]; PLACES],
    table: [[u64; 8]; 256],
    slots: [[u8; 2]; control_line::places::PLACES],
    polled: [[u8; 256]; POLLED],
    known: [[bool; 256]; KNOWN],
    order: [u8; ORDER],
    ranges: [[u8; RANGE_ROW]; RANGES],
    core: Core,
) -> State
    ensures { result ≡ box_of (lent replies marks table slots (held polled known order ranges) [] []) core }
{
    let manager = Manager {
        table: pid_table::rows::unpack_all(table),
        metrics: core.manager.metrics,
        last: core.manager.last,
    };
    let line = ControlLine {
        slots: control_line::places::unpack_all(slots),
        head: core.line.head,
        count: core.line.count,
    };
    State {
        desk: desk_of(replies, marks, core.desk),
        manager,
        poller: poller_of(polled, known, order, ranges, core.poller),
        line,
        profiles: core.profiles,
        settings: core.settings,
        time: core.time,
    }
}

// What stands beside an answer, with the report of its arrays.
fn details_of(pids: [u8; 256], rates: [f32; 256], notes: Notes) -> Details
    ensures { result ≡ details_of (lent [] [] [] [] (held [] [] [] []) pids rates) notes }
{
    let lengths = notes.lengths;
    let values = notes.values;
    let notices = notes.notices;
    Details {
        lines: notes.lines,
        lengths,
        values,
        notices,
        query: notes.query,
        report: report::summary::report(&pids, &rates, notes.summary),
    }
}

// What a call over the arrays told, as an answer by value.
fn answered_of(
    replies: [[u8; ROW]; 256],
    marks: [[bool; 256]; PLACES],
    table: [[u64; 8]; 256],
    slots: [[u8; 2]; control_line::places::PLACES],
    polled: [[u8; 256]; POLLED],
    known: [[bool; 256]; KNOWN],
    order: [u8; ORDER],
    ranges: [[u8; RANGE_ROW]; RANGES],
    pids: [u8; 256],
    rates: [f32; 256],
    told: Told,
) -> Answered
    ensures { answered_in result ≡ answered_of (lent replies marks table slots (held polled known order ranges) pids rates) told }
{
    let state = state_of(
        replies, marks, table, slots, polled, known, order, ranges, told.core,
    );
    Answered {
        state,
        answer: told.answer,
        details: details_of(pids, rates, told.notes),
    }
}

// The box's start.
pub fn start(time: u64, settings: Settings, profiles: Profiles) -> Answered
    ensures value { answered_in result ≡ start_of time settings profiles }
    ensures promised_start { PromisedStart time settings profiles (answered_in result) }
{
    let mut replies = [[0u8; ROW]; 256];
    let mut marks = [[false; 256]; PLACES];
    let mut table = [[0u64; 8]; 256];
    let mut slots = [[0u8; 2]; control_line::places::PLACES];
    let mut polled = [[0u8; 256]; POLLED];
    let mut known = [[false; 256]; KNOWN];
    let mut order = [0u8; ORDER];
    let mut ranges = link::ranges::blank();
    let told = setup_calls::start(
        &mut replies,
        &mut marks,
        &mut table,
        &mut slots,
        &mut polled,
        &mut known,
        &mut order,
        &mut ranges,
        time,
        settings,
        profiles,
    );
    let pids = [0u8; 256];
    let rates = [0.0f32; 256];
    answered_of(
        replies, marks, table, slots, polled, known, order, ranges, pids, rates, told,
    )
}

// Applies one call, at a time, to the box. What the call does not bring or is not lent is left unread.
pub fn call(
    state: State,
    time: u64,
    call: Call,
    brought: Brought,
    cmd: &[u8],
    area: &mut [u8],
) -> Answered
    ensures value { answered_in result ≡ step state (call_of time call brought cmd.now area.old) }
    ensures area_after { area.new ≡ area_of state time call brought cmd.now area.old }
    ensures promised { Promised state (call_of time call brought cmd.now area.old) (answered_in result) }
{
    let store = state.desk.store;
    let mut replies = reply::rows::pack_all(store);
    let clients = state.desk.clients;
    let mut marks = clients::seats::marks_of(clients);
    let entries = state.manager.table;
    let mut table = pid_table::rows::pack_all(entries);
    let messages = state.line.slots;
    let mut slots = control_line::places::pack_all(messages);
    let poller = state.poller;
    let mut polled = polled_of(poller);
    let mut known = known_of(poller);
    let mut order = poller.plan.pids;
    let told = poller.link.ranges;
    let mut ranges = link::ranges::pack_all(told);
    let mut pids = [0u8; 256];
    let mut rates = [0.0f32; 256];
    let core = core_of(state);
    let said = dispatch::call(
        &mut replies,
        &mut marks,
        &mut table,
        &mut slots,
        &mut polled,
        &mut known,
        &mut order,
        &mut ranges,
        &mut pids,
        &mut rates,
        core,
        time,
        call,
        brought,
        cmd,
        area,
    );
    answered_of(
        replies, marks, table, slots, polled, known, order, ranges, pids, rates, said,
    )
}
