ghost use Rattle.std.specs.Prelude.{◌≡◌, length};
ghost use Rattle.clients.specs.Rules.{places};
ghost use Rattle.obd2.specs.Call.{collect};
ghost use Rattle.obd2.specs.Core.{Lent, with_desk, box_of, answered_of};
ghost use Rattle.obd2.specs.Answers.{Answers};
ghost use Rattle.obd2.specs.History.{lent_by};
ghost use Rattle.obd2.specs.Refusals.{row_refusal};

use clients::PLACES;
use obd2::rest::{Core, Told};
use obd2::{Said, telling};
use refusal::Refusal;
use reply::rows::ROW;

// The reply that the client waits for, into the lent area, and how long it waited.
pub fn collect(
    replies: &[[u8; ROW]; 256],
    marks: &mut [[bool; 256]; PLACES],
    mut core: Core,
    time: u64,
    number: u32,
    area: &mut [u8],
) -> Told
    requires { length marks.old ≡ places }
    ensures marks_len { length marks.new ≡ places }
    ensures answers { (x : Lent) → Answers (box_of (with_desk x replies.now marks.old) core) (collect time number area.old) (answered_of (with_desk x replies.now marks.new) result) }
    ensures area_after { (x : Lent) → let s = box_of (with_desk x replies.now marks.old) core in let c = collect time number area.old in area.new ≡ lent_by (row_refusal s c) s c }
{
    let desk = core.desk;
    let collected = waits::ending::collect(replies, marks, desk, time, number, area);
    let after = collected.core;
    core.desk = after;
    if collected.refusal != 0 {
        return telling::refuse(core, Refusal::numbered(collected.refusal));
    }
    let lengths = collected.lengths;
    let notes = telling::lines_of(collected.lines, lengths);
    telling::accept(
        core,
        time,
        Said::Collected(collected.pid, collected.wait),
        notes,
    )
}
