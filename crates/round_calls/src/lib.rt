// The box's calls of a round: its begin, its steps and their results. The time is not tested here:
// `dispatch::call` does that before, and is the box's door.
#![tactic(auto)]

ghost use Rattle.std.specs.Prelude.{◌≡◌, ℕ, not, ◌||◌, List, length};
ghost use Rattle.link.specs.Ranges.{replies_in};
ghost use Rattle.obd2.specs.Behind.{behind_by};
ghost use Rattle.obd2.specs.Call.{begin, next, result as result_of};
ghost use Rattle.obd2.specs.Core.{Lent, with_poller, box_of, answered_of};
ghost use Rattle.obd2.specs.Answers.{Answers};
ghost use Rattle.poller.specs.Core.{held, polled_rows, known_rows};
ghost use Rattle.poller.specs.State.{open_of, due_of};

use link::ranges::{RANGE_ROW, RANGES};
use obd2::rest::{Core, Told};
use obd2::{Said, telling};
use poller::Round;
use poller::rest::{KNOWN, ORDER, POLLED};
use refusal::Refusal;
use rounds::Outcome;

// A round is begun, with the settings of now.
pub fn begin(
    polled: &mut [[u8; 256]; POLLED],
    known: &mut [[bool; 256]; KNOWN],
    order: &mut [u8; ORDER],
    mut core: Core,
    time: u64,
) -> Told
    requires polled_len { length polled.old ≡ polled_rows }
    requires known_len { length known.old ≡ known_rows }
    ensures polled_after { length polled.new ≡ polled_rows }
    ensures known_after { length known.new ≡ known_rows }
    ensures fact { ((x : Lent) (ranges : List (List ℕ)) → Answers (box_of (with_poller x (held polled.old known.old order.old ranges)) core) (begin time) (answered_of (with_poller x (held polled.new known.new order.new ranges)) result)) }
{
    let poller = core.poller;
    let round = poller.round;
    if poller::open(round) {
        return telling::refuse(core, Refusal::RoundOpen);
    }
    let settings = core.settings;
    let opened = poller::calls::begin(polled, known, order, poller, settings);
    core.poller = opened;
    let notes = telling::no_notes();
    telling::accept(core, time, Said::Done, notes)
}

// Whether a step of the round may not be asked for: none is open, or a result is due.
fn out_of_turn(round: Round) -> bool
    ensures { result ≡ (not (open_of round.phase) || due_of round.phase) }
{
    if !poller::open(round) {
        return true;
    }
    poller::due(round)
}

// The open round's next step: a query, which stands in the details, or the round's end.
pub fn next(
    polled: &[[u8; 256]; POLLED],
    known: &[[bool; 256]; KNOWN],
    order: &[u8; ORDER],
    mut core: Core,
    time: u64,
) -> Told
    ensures { ((x : Lent) (ranges : List (List ℕ)) → let y = with_poller x (held polled.now known.now order.now ranges) in Answers (box_of y core) (next time) (answered_of y result)) }
{
    let poller = core.poller;
    let round = poller.round;
    if out_of_turn(round) {
        return telling::refuse(core, Refusal::OutOfTurn);
    }
    let stepped = rounds::next::next(polled, known, order, poller, time);
    let moved = stepped.core;
    core.poller = moved;
    let reached = moved.round;
    let query = reached.due;
    let notes = telling::querying(query);
    let step = stepped.step;
    telling::accept(core, time, Said::Step(step), notes)
}

// The result of the query that is due.
pub fn result(
    polled: &mut [[u8; 256]; POLLED],
    known: &mut [[bool; 256]; KNOWN],
    ranges: &mut [[u8; RANGE_ROW]; RANGES],
    mut core: Core,
    time: u64,
    outcome: Outcome,
) -> Told
    requires polled_len { length polled.old ≡ polled_rows }
    requires known_len { length known.old ≡ known_rows }
    ensures polled_after { length polled.new ≡ polled_rows }
    ensures known_after { length known.new ≡ known_rows }
    ensures fact { ((x : Lent) (order : List ℕ) → Answers (box_of (with_poller x (held polled.old known.old order ranges.old)) core) (result_of time outcome) (answered_of (with_poller x (held polled.new known.new order ranges.new)) result)) }
    ensures behind { replies_in ranges.new ≡ behind_by (result_of time outcome) result.answer (replies_in ranges.old) }
{
    let poller = core.poller;
    let round = poller.round;
    if !poller::due(round) {
        return telling::refuse(core, Refusal::OutOfTurn);
    }
    let taught = rounds::result::result(polled, known, ranges, poller, time, outcome);
    core.poller = taught;
    let notes = telling::no_notes();
    telling::accept(core, time, Said::Done, notes)
}
