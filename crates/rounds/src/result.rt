// What a result teaches and ends.
ghost use Rattle.std.specs.Prelude.{◌≡◌, ℕ, Bool, List, length};
ghost use Rattle.base.specs.Choice.{pick};
ghost use Rattle.link.specs.Core.{link_of};
ghost use Rattle.link.specs.Ranges.{replies_in, no_replies};
ghost use Rattle.poller.specs.Core.{held, polled_rows, known_rows, poller_of};
ghost use Rattle.rounds.specs.Result.{is_lost, teach_of, learn_of, ends_multi, phase_after, round_after, clock_after, link_after, result_of};

use super::{Kind, Learnt, Lessons, Outcome};
use link::Features;
use link::ranges::{RANGE_ROW, RANGES};
use poller::rest::{COUNTS, Core, KNOWN, LENGTHS, POLLED};
use poller::{Phase, Query, Round};

// Whether the connection was lost.
fn lost(k: Kind) -> bool
    ensures { result ≡ is_lost k }
{
    matches!(k, Kind::Lost)
}

// What a result teaches of a PID. A count, once kept, is not replaced.
fn teach(mut k: Lessons, pid: u8, l: Learnt) -> Lessons
    ensures { result ≡ teach_of k pid l }
{
    let row = pid_list::row(pid);
    k.known[row] = l.known;
    if k.counts[row] == 0 {
        k.counts[row] = l.ecu;
    }
    k
}

// What the result teaches of the query's PIDs.
fn learn(mut k: Lessons, q: Query, learnt: [Learnt; 6]) -> Lessons
    ensures { result ≡ learn_of k q learnt }
{
    for (i, pid) in q.pids[..q.count.min(6)].iter().enumerate() {
        k = teach(k, *pid, learnt[i]);
    }
    k
}

// The connection after the result, its known lengths apart.
fn link_after(
    ranges: &mut [[u8; RANGE_ROW]; RANGES],
    mut l: link::rest::Core,
    features: Features,
    gone: bool,
) -> link::rest::Core
    ensures result_after { (lengths taught : List Bool) → link_of taught ranges.new result ≡ link_after (link_of lengths ranges.old l) taught features gone }
    ensures behind { replies_in ranges.new ≡ pick gone no_replies (replies_in ranges.old) }
{
    l.features = features;
    if gone {
        return link::rest::lose(ranges, l);
    }
    l
}

// Whether a multi round ends with the result: the connection is lost, or a chunk of two or more was refused.
fn ends(count: usize, denied: bool, gone: bool) -> bool
    ensures { result ≡ ends_multi count denied gone }
{
    gone || denied && 2 <= count
}

// The phase after the result.
fn phase_after(phase: Phase, over: bool) -> Phase
    ensures { result ≡ phase_after phase over }
{
    match phase {
        Phase::FastDue => Phase::Test,
        Phase::SlowDue => Phase::Over,
        Phase::MultiDue if over => Phase::Over,
        Phase::MultiDue => Phase::Multi,
        // no result is due
        _ => phase,
    }
}

// The round after the result.
fn round_after(r: Round, denied: bool, gone: bool) -> Round
    ensures { result ≡ round_after r denied gone }
{
    let due = r.due;
    let over = ends(due.count, denied, gone);
    let before = r.phase;
    let phase = phase_after(before, over);
    let none = poller::no_query();
    Round {
        phase: phase,
        nofast: r.nofast,
        issued: r.issued,
        due: none,
    }
}

// The slow clock after the result: a slow query's result sets it.
fn clock_after(phase: Phase, clock: u64, time: u64) -> u64
    ensures { result ≡ clock_after phase clock time }
{
    if matches!(phase, Phase::SlowDue) {
        time
    } else {
        clock
    }
}

// The result of the query that is due.
pub fn result(
    polled: &mut [[u8; 256]; POLLED],
    known: &mut [[bool; 256]; KNOWN],
    ranges: &mut [[u8; RANGE_ROW]; RANGES],
    mut p: Core,
    time: u64,
    o: Outcome,
) -> Core
    requires polled_len { length polled.old ≡ polled_rows }
    requires known_len { length known.old ≡ known_rows }
    ensures polled_len_2 { length polled.new ≡ polled_rows }
    ensures known_len_2 { length known.new ≡ known_rows }
    ensures by_index { (order : List ℕ) → poller_of (held polled.new known.new order ranges.new) result ≡ result_of (poller_of (held polled.old known.old order ranges.old) p) time o }
    ensures behind { replies_in ranges.new ≡ pick (is_lost o.kind) no_replies (replies_in ranges.old) }
{
    let kind = o.kind;
    let gone = lost(kind);
    let features = o.features;
    let denied = link::refuses(features);
    let round = p.round;
    let link = p.link;
    let counts = polled[COUNTS];
    let lengths = known[LENGTHS];
    let asked = round.due;
    let learnt = o.learnt;
    let lessons = learn(
        Lessons {
            counts: counts,
            known: lengths,
        },
        asked,
        learnt,
    );
    let taught = lessons.known;
    let kept = lessons.counts;
    polled[COUNTS] = kept;
    known[LENGTHS] = taught;
    let phase = round.phase;
    p.clock = clock_after(phase, p.clock, time);
    p.link = link_after(ranges, link, features, gone);
    p.round = round_after(round, denied, gone);
    p
}
