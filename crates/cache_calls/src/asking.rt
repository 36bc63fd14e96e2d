ghost use Rattle.std.specs.Prelude.{◌≡◌, length};
ghost use Rattle.clients.specs.Rules.{places};
ghost use Rattle.obd2.specs.Call.{ask};
ghost use Rattle.obd2.specs.Core.{Lent, with_asked, box_of, answered_of};
ghost use Rattle.obd2.specs.Answers.{Answers};
ghost use Rattle.obd2.specs.History.{lent_by};
ghost use Rattle.obd2.specs.Refusals.{row_refusal};

use clients::PLACES;
use link::ranges::{RANGE_ROW, RANGES};
use obd2::rest::{Core, Told};
use obd2::{Said, telling};
use refusal::Refusal;
use reply::rows::ROW;

// A client's command, answered by what the connection has stored or from the cache. The lent area gets the reply's
// lines, if the answer hands a reply out.
pub fn ask(
    replies: &[[u8; ROW]; 256],
    marks: &mut [[bool; 256]; PLACES],
    ranges: &[[u8; RANGE_ROW]; RANGES],
    mut core: Core,
    time: u64,
    number: u32,
    cmd: &[u8],
    area: &mut [u8],
) -> Told
    requires { length marks.old ≡ places }
    ensures marks_len { length marks.new ≡ places }
    ensures answers { (x : Lent) → Answers (box_of (with_asked x replies.now marks.old ranges.now) core) (ask time number cmd.now area.old) (answered_of (with_asked x replies.now marks.new ranges.now) result) }
    ensures area_after { (x : Lent) → let s = box_of (with_asked x replies.now marks.old ranges.now) core in let c = ask time number cmd.now area.old in area.new ≡ lent_by (row_refusal s c) s c }
{
    let desk = core.desk;
    let told = link::ranges::unpack_all(*ranges);
    let asked = cache::asking::ask(
        replies,
        marks,
        desk,
        time,
        number,
        cmd,
        area,
        core.poller.link.connected,
        told,
    );
    let after = asked.core;
    core.desk = after;
    if asked.refusal != 0 {
        return telling::refuse(core, Refusal::numbered(asked.refusal));
    }
    let lengths = asked.lengths;
    let notes = telling::lines_of(asked.lines, lengths);
    let answer = asked.answer;
    telling::accept(core, time, Said::Asked(answer), notes)
}
