// The box's call that takes a control message. The time is not tested here: `dispatch::call` does that before, and is the
// box's door.
#![tactic(auto)]

ghost use Rattle.std.specs.Prelude.{◌≡◌, length};
ghost use Rattle.obd2.specs.Call.{take_control};
ghost use Rattle.obd2.specs.Core.{Lent, with_line, box_of, answered_of};
ghost use Rattle.obd2.specs.Done.{listing};
ghost use Rattle.obd2.specs.Answers.{Answers};
ghost use Rattle.poller.specs.Core.{Held, with_polled, polled_rows, poller_of};

use control::DongleMessage;
use control_line::places::PLACES;
use obd2::rest::{Core, Told};
use obd2::{Said, telling};
use poller::rest::POLLED;
use refusal::Refusal;

// The poller after what was taken: a message goes into its lists.
fn listing(
    polled: &mut [[u8; 256]; POLLED],
    poller: poller::rest::Core,
    taken: Option<DongleMessage>,
) -> poller::rest::Core
    requires { length polled.old ≡ polled_rows }
    ensures polled_len { length polled.new ≡ polled_rows }
    ensures result_after { (x : Held) → poller_of (with_polled x polled.new) result ≡ listing (poller_of (with_polled x polled.old) poller) taken }
{
    match taken {
        Some(message) => poller::calls::apply(polled, poller, message),
        None => poller,
    }
}

// The control message that has waited longest goes to the poller. A message that is taken stays in its place, unread.
pub fn take_control(
    slots: &[[u8; 2]; PLACES],
    polled: &mut [[u8; 256]; POLLED],
    mut core: Core,
    time: u64,
) -> Told
    requires { length polled.old ≡ polled_rows }
    ensures polled_len { length polled.new ≡ polled_rows }
    ensures answers { (x : Lent) → Answers (box_of (with_line x slots.now polled.old) core) (take_control time) (answered_of (with_line x slots.now polled.new) result) }
{
    let poller = core.poller;
    let round = poller.round;
    if poller::open(round) {
        return telling::refuse(core, Refusal::RoundOpen);
    }
    let ends = core.line;
    let shorter = control_line::places::take(slots, ends);
    let left = shorter.ends;
    let taken = shorter.taken;
    let listed = listing(polled, poller, taken);
    core.line = left;
    core.poller = listed;
    let notes = telling::no_notes();
    telling::accept(core, time, Said::Taken(taken), notes)
}
