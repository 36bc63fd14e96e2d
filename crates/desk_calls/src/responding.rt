ghost use Rattle.std.specs.Prelude.{◌≡◌, false, length};
ghost use Rattle.clients.specs.Rules.{places};
ghost use Rattle.obd2.specs.Call as call;
ghost use Rattle.obd2.specs.Core.{lent, box_of, answered_of};
ghost use Rattle.obd2.specs.Answers.{Answers};
ghost use Rattle.poller.specs.Core.{Held};

use clients::PLACES;
use manager::Event;
use obd2::rest::{Core, Told};
use obd2::{Said, telling};
use passes::Terms;
use refusal::Refusal;
use reply::Response;
use reply::rows::ROW;

// A response of the dongle goes to every client. The profiles that its values switched off count no more in the
// maintenance of the same call. Replies and marks are stored last, once nothing can refuse the call any more.
pub fn response(
    replies: &mut [[u8; ROW]; 256],
    marks: &mut [[bool; 256]; PLACES],
    table: &mut [[u64; 8]; 256],
    slots: &mut [[u8; 2]; control_line::places::PLACES],
    pids: &mut [u8; 256],
    rates: &mut [f32; 256],
    mut core: Core,
    time: u64,
    response: Response,
) -> Told
    requires marks_len { length marks.old ≡ places }
    requires table_len { length table.old ≡ 256 }
    requires pids_len { length pids.old ≡ 256 }
    requires rates_len { length rates.old ≡ 256 }
    ensures marks_len_2 { length marks.new ≡ places }
    ensures table_len_2 { length table.new ≡ 256 }
    ensures pids_len_2 { length pids.new ≡ 256 }
    ensures rates_len_2 { length rates.new ≡ 256 }
    ensures pids_unchanged { result.notes.summary.ran ≡ false → pids.new ≡ pids.old }
    ensures rates_unchanged { result.notes.summary.ran ≡ false → rates.new ≡ rates.old }
    ensures answers { (polling : Held) → Answers (box_of (lent replies.old marks.old table.old slots.old polling pids.old rates.old) core) (call.response time response) (answered_of (lent replies.new marks.new table.new slots.new polling pids.new rates.new) result) }
{
    let mut desk = core.desk;
    let profiles = core.profiles;
    let revs = desk.revs;
    let evaluated = delivery::evaluation::evaluate(revs, profiles, response);
    if evaluated.refusal != 0 {
        return telling::refuse(core, Refusal::numbered(evaluated.refusal));
    }
    let switched = evaluated.profiles;
    let manager = core.manager;
    let line = core.line;
    let settings = core.settings;
    let terms = Terms {
        profiles: switched,
        settings: settings,
        now: time,
    };
    let sent = manager_calls::send(
        table,
        slots,
        pids,
        rates,
        manager,
        line,
        terms,
        Event::Nothing,
    );
    let kept = sent.manager;
    let longer = sent.line;
    core.manager = kept;
    core.line = longer;
    if sent.refused {
        return telling::refuse(core, Refusal::LineFull);
    }
    let clients = desk.clients;
    delivery::storing::store(replies, marks, clients, response);
    let turning = evaluated.revs;
    desk.revs = turning;
    core.desk = desk;
    core.profiles = switched;
    let values = evaluated.values;
    let notices = evaluated.notices;
    let summary = sent.summary;
    let notes = telling::delivering(values, notices, summary);
    telling::accept(core, time, Said::Done, notes)
}
