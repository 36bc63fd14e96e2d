// The box's start, and the call that changes its settings. Neither has a report, and the settings send nothing.
// The time of a settings call is not tested here: `dispatch::call` does that before.
#![tactic(auto)]

ghost use Rattle.std.specs.Prelude.{◌≡◌, ℕ, List, length};
ghost use Rattle.std.specs.Prelude.{Float};
ghost use Rattle.clients.specs.Rules.{places};
ghost use Rattle.config.specs.Blank.{no_profiles};
ghost use Rattle.config.specs.Defaults.{default_settings};
ghost use Rattle.link.specs.Ranges.{replies_in, no_replies};
ghost use Rattle.obd2.specs.Answers.{Answers, PromisedStart};
ghost use Rattle.obd2.specs.Call as call;
ghost use Rattle.obd2.specs.Core.{Lent, lent, box_of, answered_of};
ghost use Rattle.obd2.specs.History.{start_of};
ghost use Rattle.obd2.specs.Refusals.{start_refusal};
ghost use Rattle.obd2.specs.State.{started};
ghost use Rattle.refusal.specs.Number.{number_in};
ghost use Rattle.poller.specs.Core.{held, polled_rows, known_rows};

use clients::PLACES;
use config::{Profiles, Settings};
use link::ranges::{RANGE_ROW, RANGES};
use obd2::rest::{Core, Told};
use obd2::{Said, answers, telling};
use passes::Terms;
use poller::rest::{KNOWN, ORDER, POLLED};
use refusal::Refusal;
use reply::rows::ROW;

// The box before its first call, whatever its arrays had. An empty line has room for all that a start sends.
fn started(
    replies: &mut [[u8; ROW]; 256],
    marks: &mut [[bool; 256]; PLACES],
    table: &mut [[u64; 8]; 256],
    slots: &mut [[u8; 2]; control_line::places::PLACES],
    polled: &mut [[u8; 256]; POLLED],
    known: &mut [[bool; 256]; KNOWN],
    order: &mut [u8; ORDER],
    ranges: &mut [[u8; RANGE_ROW]; RANGES],
    time: u64,
    settings: Settings,
    profiles: Profiles,
) -> Core
    ensures marks_len { length marks.new ≡ places }
    ensures table_len { length table.new ≡ 256 }
    ensures polled_len { length polled.new ≡ polled_rows }
    ensures known_len { length known.new ≡ known_rows }
    ensures by_index { (pids : List ℕ) (rates : List Float) → box_of (lent replies.new marks.new table.new slots.new (held polled.new known.new order.new ranges.new) pids rates) result ≡ started time settings profiles }
    ensures behind { replies_in ranges.new ≡ no_replies }
{
    let terms = Terms {
        profiles: profiles,
        settings: settings,
        now: time,
    };
    let managed = manager::rows::start(table, terms);
    let manager = managed.core;
    let sent = managed.outbox;
    let nothing = control_line::places::clear(slots);
    let line = control_line::places::push_all(slots, nothing, sent);
    let desk = desk::rest::start(replies, marks);
    let poller = poller::rest::start(polled, known, order, ranges, time);
    Core {
        desk: desk,
        manager: manager,
        poller: poller,
        line: line,
        profiles: profiles,
        settings: settings,
        time: time,
    }
}

// What a start is refused for. No time comes before it, so that only a late one is.
fn unfit(time: u64, settings: Settings, profiles: Profiles) -> Option<Refusal>
    ensures { number_in result ≡ start_refusal time settings profiles }
{
    if answers::bad_time(0, time) {
        return Some(Refusal::BadTime);
    }
    if profile_check::unknown_mode(settings.mode) || profile_check::bad_profiles(profiles) {
        return Some(Refusal::UnknownKind);
    }
    None
}

// The box's start. One that is refused gives a box that is there all the same: the box started at 0 with defaults.
pub fn start(
    replies: &mut [[u8; ROW]; 256],
    marks: &mut [[bool; 256]; PLACES],
    table: &mut [[u64; 8]; 256],
    slots: &mut [[u8; 2]; control_line::places::PLACES],
    polled: &mut [[u8; 256]; POLLED],
    known: &mut [[bool; 256]; KNOWN],
    order: &mut [u8; ORDER],
    ranges: &mut [[u8; RANGE_ROW]; RANGES],
    time: u64,
    settings: Settings,
    profiles: Profiles,
) -> Told
    ensures marks_len { length marks.new ≡ places }
    ensures table_len { length table.new ≡ 256 }
    ensures polled_len { length polled.new ≡ polled_rows }
    ensures known_len { length known.new ≡ known_rows }
    ensures by_index { (pids : List ℕ) (rates : List Float) → answered_of (lent replies.new marks.new table.new slots.new (held polled.new known.new order.new ranges.new) pids rates) result ≡ start_of time settings profiles }
    ensures by_index_2 { (pids : List ℕ) (rates : List Float) → PromisedStart time settings profiles (answered_of (lent replies.new marks.new table.new slots.new (held polled.new known.new order.new ranges.new) pids rates) result) }
    ensures behind { replies_in ranges.new ≡ no_replies }
{
    match unfit(time, settings, profiles) {
        Some(refusal) => {
            let settings = config::default_settings();
            let profiles = config::no_profiles();
            let core = started(
                replies, marks, table, slots, polled, known, order, ranges, 0, settings, profiles,
            );
            telling::refuse(core, refusal)
        }
        None => {
            let core = started(
                replies, marks, table, slots, polled, known, order, ranges, time, settings,
                profiles,
            );
            Told {
                core: core,
                answer: Ok(Said::Started),
                notes: telling::no_notes(),
            }
        }
    }
}

// The settings in force from now on. An open round keeps those that its begin found.
pub fn set_settings(mut core: Core, time: u64, settings: Settings) -> Told
    ensures { (x : Lent) → Answers (box_of x core) (call.settings time settings) (answered_of x result) }
{
    if profile_check::unknown_mode(settings.mode) {
        return telling::refuse(core, Refusal::UnknownKind);
    }
    core.settings = settings;
    let notes = telling::no_notes();
    telling::accept(core, time, Said::Done, notes)
}
