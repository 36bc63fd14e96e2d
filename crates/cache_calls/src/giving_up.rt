ghost use Rattle.std.specs.Prelude.{◌≡◌};
ghost use Rattle.obd2.specs.Call.{give_up};
ghost use Rattle.obd2.specs.Core.{Lent, box_of, answered_of};
ghost use Rattle.obd2.specs.Answers.{Answers};

use obd2::rest::{Core, Told};
use obd2::{Said, telling};
use refusal::Refusal;

// The client waits no longer, and is answered NO DATA.
pub fn give_up(mut core: Core, time: u64, number: u32) -> Told
    ensures { (x : Lent) → Answers (box_of x core) (give_up time number) (answered_of x result) }
{
    let desk = core.desk;
    let ended = waits::ending::give_up(desk, number);
    let after = ended.core;
    core.desk = after;
    if ended.refusal != 0 {
        return telling::refuse(core, Refusal::numbered(ended.refusal));
    }
    let notes = telling::no_notes();
    telling::accept(core, time, Said::GivenUp, notes)
}
