// The messages of one call, in the order in which they are sent.
ghost use Rattle.std.specs.Prelude.{◌≡◌};
ghost use Rattle.control.specs.Outbox.{empty_of, push_of};

use crate::DongleMessage;
use config::PidPriority;

// The first `count` of `slots`. No call sends more than 257. An array with its count, since the box runs in fixed memory.
#[derive(Clone, Copy)]
pub struct Outbox {
    pub slots: [DongleMessage; 257],
    pub count: u16,
}

#[tactic(auto, unfolding(crate::specs::Outbox::empty_of))]
pub fn empty() -> Outbox
    ensures { result ≡ empty_of }
{
    let unused = DongleMessage::SetPidPriority(0, PidPriority::Fast);
    Outbox {
        slots: [unused; 257],
        count: 0,
    }
}

// The message behind the others; in a full outbox nothing changes.
#[tactic(auto, unfolding(crate::specs::Outbox::push_of))]
pub fn push(mut outbox: Outbox, message: DongleMessage) -> Outbox
    ensures { result ≡ push_of outbox message }
{
    if outbox.count < 257 {
        let at = outbox.count as usize;
        outbox.slots[at] = message;
        outbox.count += 1;
    }
    outbox
}
