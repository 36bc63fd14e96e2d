// The poller but for what is lent: the PIDs of its two lists, the ECU counts, the known lengths, the ranges, and what a multi
// round's plan goes by.
ghost use Rattle.std.specs.Prelude.{◌≡◌, length, slice_set};
ghost use Rattle.link.specs.Ranges.{replies_in, no_replies};
ghost use Rattle.poller.specs.Core.{held, fast_row, slow_row, fixed_row, polled_rows, fixed_lengths_row, known_rows, list_of, ends_of, blank_polled, plan_in, course_of, poller_of};
ghost use Rattle.poller.specs.State.{start_of};

use super::Round;
use config::Settings;
use link::Connecting;
use link::ranges::{RANGE_ROW, RANGES};
use pid_list::PidList;
use plan::Plan;

// The rows that are lent as one array: the PIDs of the fast list and of the slow one, the ECU count kept for each PID, and those
// that the plan goes by.
pub const POLLED: usize = 4;

pub const FAST: usize = 0;

pub const SLOW: usize = 1;

pub const COUNTS: usize = 2;

const FIXED: usize = 3;

// The known lengths: of the connection, and those that the plan goes by.
pub const KNOWN: usize = 2;

pub const LENGTHS: usize = 0;

const FIXED_LENGTHS: usize = 1;

// The places of a plan.
pub const ORDER: usize = 512;

// A list but for its PIDs.
#[derive(Clone, Copy)]
pub struct Ends {
    pub len: usize,
    pub index: usize,
}

// A plan but for its arrays.
#[derive(Clone, Copy)]
pub struct Course {
    pub len: usize,
    pub maxpids: u8,
    pub group: usize,
    pub at: usize,
}

#[derive(Clone, Copy)]
pub struct Core {
    pub fast: Ends,
    pub slow: Ends,
    pub clock: u64,
    pub requests: u32,
    pub link: link::rest::Core,
    pub settings: Settings,
    pub plan: Course,
    pub round: Round,
}

// The poller after an outcome of connecting, and what the link says to it.
#[derive(Clone, Copy)]
pub struct Tried {
    pub core: Core,
    pub said: Connecting,
}

// The poller after a reconnect check, and whether one may be tried.
#[derive(Clone, Copy)]
pub struct Looked {
    pub core: Core,
    pub yes: bool,
}

pub fn ends_of(list: PidList) -> Ends
    ensures { result ≡ ends_of list }
{
    Ends {
        len: list.len,
        index: list.index,
    }
}

// The fast list.
pub fn fast(polled: &[[u8; 256]; POLLED], ends: Ends) -> PidList
    ensures { result ≡ list_of polled.now fast_row ends }
{
    let pids = polled[FAST];
    PidList {
        pids: pids,
        len: ends.len,
        index: ends.index,
    }
}

// The slow list.
pub fn slow(polled: &[[u8; 256]; POLLED], ends: Ends) -> PidList
    ensures { result ≡ list_of polled.now slow_row ends }
{
    let pids = polled[SLOW];
    PidList {
        pids: pids,
        len: ends.len,
        index: ends.index,
    }
}

pub fn course_of(plan: Plan) -> Course
    ensures { result ≡ course_of plan }
{
    Course {
        len: plan.len,
        maxpids: plan.maxpids,
        group: plan.group,
        at: plan.at,
    }
}

// The plan of the open round.
pub fn plan(
    polled: &[[u8; 256]; POLLED],
    known: &[[bool; 256]; KNOWN],
    order: &[u8; ORDER],
    course: Course,
) -> Plan
    ensures { result ≡ plan_in polled.now known.now order.now course }
{
    let pids = *order;
    let counts = polled[FIXED];
    let lengths = known[FIXED_LENGTHS];
    Plan {
        pids: pids,
        len: course.len,
        counts: counts,
        known: lengths,
        maxpids: course.maxpids,
        group: course.group,
        at: course.at,
    }
}

// Puts a plan into the lent arrays.
pub fn keep(
    polled: &mut [[u8; 256]; POLLED],
    known: &mut [[bool; 256]; KNOWN],
    order: &mut [u8; ORDER],
    plan: Plan,
) -> Course
    ensures polled_after { polled.new ≡ slice_set polled.old fixed_row plan.counts }
    ensures known_after { known.new ≡ slice_set known.old fixed_lengths_row plan.known }
    ensures order_after { order.new ≡ plan.pids }
    ensures value { result ≡ course_of plan }
{
    let pids = plan.pids;
    let counts = plan.counts;
    let lengths = plan.known;
    *order = pids;
    polled[FIXED] = counts;
    known[FIXED_LENGTHS] = lengths;
    course_of(plan)
}

#[tactic(auto, unfolding(crate::specs::Core::blank_polled))]
fn blank_polled() -> [[u8; 256]; POLLED]
    ensures { result ≡ blank_polled }
{
    [[0u8; 256]; POLLED]
}

// The poller before any call, whatever its arrays had.
pub fn start(
    polled: &mut [[u8; 256]; POLLED],
    known: &mut [[bool; 256]; KNOWN],
    order: &mut [u8; ORDER],
    ranges: &mut [[u8; RANGE_ROW]; RANGES],
    time: u64,
) -> Core
    ensures polled_len { length polled.new ≡ polled_rows }
    ensures known_len { length known.new ≡ known_rows }
    ensures result_after { poller_of (held polled.new known.new order.new ranges.new) result ≡ start_of time }
    ensures behind { replies_in ranges.new ≡ no_replies }
{
    *polled = blank_polled();
    let mut lengths = [false; 256];
    let link = link::rest::start(&mut lengths, ranges);
    *known = [lengths; KNOWN];
    let list = pid_list::empty();
    let ends = ends_of(list);
    let settings = config::default_settings();
    let plan = plan::make(list, list, [0u8; 256], lengths, 6);
    let course = keep(polled, known, order, plan);
    let round = super::closed();
    Core {
        fast: ends,
        slow: ends,
        clock: time,
        requests: 0,
        link: link,
        settings: settings,
        plan: course,
        round: round,
    }
}
