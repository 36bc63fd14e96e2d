// What a round asks next, and its end.
ghost use Rattle.std.specs.Prelude.{◌≡◌, ℕ, List, [], ◌∷◌, slice_index_or};
ghost use Rattle.plan.specs.Steps.{chunk_of};
ghost use Rattle.poller.specs.Core.{Held, held, with_polled, counts_row, poller_of};
ghost use Rattle.rounds.specs.Core.{stepped_in};
ghost use Rattle.rounds.specs.Numbers.{step_values, values_from};
ghost use Rattle.rounds.specs.Next.{slow_due, issue_of, end_of, slow_of, first_of, multi_of, next_of};

use super::{Moved, Step};
use config::Settings;
use plan::Chunk;
use poller::rest::{COUNTS, Core, KNOWN, ORDER, POLLED};
use poller::{Phase, Query, Round};

// The one PID of a single query.
fn single(pid: u8) -> Chunk
    ensures { result ≡ chunk_of (pid ∷ []) }
{
    Chunk {
        pids: [pid, 0, 0, 0, 0, 0],
        count: 1,
    }
}

// A query is issued, with the ECU count kept for its PIDs. All of a chunk have the same one.
fn issue(polled: &[[u8; 256]; POLLED], mut p: Core, phase: Phase, c: Chunk) -> Moved
    ensures { (x : Held) → stepped_in (with_polled x polled.now) result ≡ issue_of (poller_of (with_polled x polled.now) p) phase c }
{
    let row = pid_list::row(c.pids[0]);
    let ecu = polled[COUNTS][row];
    let pids = c.pids;
    let due = Query {
        pids: pids,
        count: c.count,
        ecu: ecu,
    };
    let round = p.round;
    let issued = base::more(round.issued);
    let after = Round {
        phase: phase,
        nofast: round.nofast,
        issued: issued,
        due: due,
    };
    p.round = after;
    Moved {
        core: p,
        step: Step::Ask,
    }
}

// The round ends, with the number of queries that it issued.
fn end(mut p: Core) -> Moved
    ensures { (x : Held) → stepped_in x result ≡ end_of (poller_of x p) }
{
    let round = p.round;
    let closed = poller::closed();
    p.round = closed;
    Moved {
        core: p,
        step: Step::End(round.issued),
    }
}

// The slow test: by the time since the last slow poll, or by the fast requests since the last passed test. Without a fast PID
// these don't grow, so in Ratio mode a round that began without one passes.
#[tactic(auto, unfolding(crate::specs::Next::slow_due))]
fn slow_due(s: Settings, nofast: bool, time: u64, clock: u64, requests: u32) -> bool
    ensures { result ≡ slow_due s nofast time clock requests }
{
    if s.mode == 0 {
        let since = base::elapsed(clock, time);
        return s.interval <= since;
    }
    nofast || s.ratio <= requests
}

// The slow test is made. The slow index moves where it passes, also when nothing can be sent.
fn slow(polled: &[[u8; 256]; POLLED], mut p: Core, time: u64) -> Moved
    ensures { (x : Held) → stepped_in (with_polled x polled.now) result ≡ slow_of (poller_of (with_polled x polled.now) p) time }
{
    let settings = p.settings;
    if !slow_due(settings, p.round.nofast, time, p.clock, p.requests) {
        return end(p);
    }
    let list = poller::rest::slow(polled, p.slow);
    let picked = pid_list::next(list);
    let moved = picked.list;
    p.requests = 0;
    p.slow = poller::rest::ends_of(moved);
    match picked.pid {
        Some(pid) if p.link.connected => issue(polled, p, Phase::SlowDue, single(pid)),
        _ => {
            p.clock = time;
            end(p)
        }
    }
}

// A single round's first step: the next fast PID, or the slow test where there is none.
fn first(polled: &[[u8; 256]; POLLED], mut p: Core, time: u64) -> Moved
    ensures { (x : Held) → stepped_in (with_polled x polled.now) result ≡ first_of (poller_of (with_polled x polled.now) p) time }
{
    let list = poller::rest::fast(polled, p.fast);
    let picked = pid_list::next(list);
    let Some(pid) = picked.pid else {
        return slow(polled, p, time);
    };
    p.fast = poller::rest::ends_of(picked.list);
    p.requests = base::more(p.requests);
    issue(polled, p, Phase::FastDue, single(pid))
}

// A multi round's step: the next chunk of its plan.
fn multi(
    polled: &[[u8; 256]; POLLED],
    known: &[[bool; 256]; KNOWN],
    order: &[u8; ORDER],
    mut p: Core,
) -> Moved
    ensures { (ranges : List (List ℕ)) → let x = held polled.now known.now order.now ranges in stepped_in x result ≡ multi_of (poller_of x p) }
{
    let plan = poller::rest::plan(polled, known, order, p.plan);
    let taken = plan::take(plan);
    let chunk = taken.chunk;
    if chunk.count == 0 {
        return end(p);
    }
    let left = taken.plan;
    p.plan = poller::rest::course_of(left);
    issue(polled, p, Phase::MultiDue, chunk)
}

// The next step of an open round.
pub fn next(
    polled: &[[u8; 256]; POLLED],
    known: &[[bool; 256]; KNOWN],
    order: &[u8; ORDER],
    p: Core,
    time: u64,
) -> Moved
    ensures by_index { (ranges : List (List ℕ)) → let x = held polled.now known.now order.now ranges in stepped_in x result ≡ next_of (poller_of x p) time }
    ensures due_value { step_values result.step result.core.round.due ≡ values_from (slice_index_or polled.now counts_row []) p.round.issued result.step result.core.round.due }
{
    let round = p.round;
    let phase = round.phase;
    match phase {
        Phase::First => first(polled, p, time),
        Phase::Test => slow(polled, p, time),
        Phase::Multi => multi(polled, known, order, p),
        // a round that is over; the box refuses the other phases by 13 before
        _ => end(p),
    }
}
