ghost use Rattle.std.specs.Prelude.{◌≡◌, ℕ, false, List, length};
ghost use Rattle.clients.specs.Rules.{places};
ghost use Rattle.obd2.specs.Call.{leave};
ghost use Rattle.obd2.specs.Core.{lent, box_of, answered_of};
ghost use Rattle.obd2.specs.Answers.{Answers};
ghost use Rattle.poller.specs.Core.{Held};

use clients::PLACES;
use manager::Event;
use obd2::rest::{Core, Told};
use obd2::{Said, telling};
use passes::Terms;
use refusal::Refusal;

// The client's place is free again. A number that nobody has takes nobody out, and is not refused.
pub fn leave(
    marks: &mut [[bool; 256]; PLACES],
    table: &mut [[u64; 8]; 256],
    slots: &mut [[u8; 2]; control_line::places::PLACES],
    pids: &mut [u8; 256],
    rates: &mut [f32; 256],
    mut core: Core,
    time: u64,
    number: u32,
) -> Told
    requires marks_len { length marks.old ≡ places }
    requires table_len { length table.old ≡ 256 }
    requires pids_len { length pids.old ≡ 256 }
    requires rates_len { length rates.old ≡ 256 }
    ensures marks_len_2 { length marks.new ≡ places }
    ensures table_len_2 { length table.new ≡ 256 }
    ensures pids_len_2 { length pids.new ≡ 256 }
    ensures rates_len_2 { length rates.new ≡ 256 }
    ensures pids_unchanged { result.notes.summary.ran ≡ false → pids.new ≡ pids.old }
    ensures rates_unchanged { result.notes.summary.ran ≡ false → rates.new ≡ rates.old }
    ensures by_index { (replies : List (List ℕ)) (polling : Held) → Answers (box_of (lent replies marks.old table.old slots.old polling pids.old rates.old) core) (leave time number) (answered_of (lent replies marks.new table.new slots.new polling pids.new rates.new) result) }
{
    let profiles = core.profiles;
    let manager = core.manager;
    let line = core.line;
    let settings = core.settings;
    let terms = Terms {
        profiles: profiles,
        settings: settings,
        now: time,
    };
    let sent = manager_calls::send(
        table,
        slots,
        pids,
        rates,
        manager,
        line,
        terms,
        Event::Nothing,
    );
    let kept = sent.manager;
    let longer = sent.line;
    core.manager = kept;
    core.line = longer;
    if sent.refused {
        return telling::refuse(core, Refusal::LineFull);
    }
    let desk = core.desk;
    let after = desk::rest::leave(marks, desk, number);
    core.desk = after;
    let summary = sent.summary;
    let notes = telling::reporting(summary);
    telling::accept(core, time, Said::Done, notes)
}
