// The manager over a table that is lent, a PID's entry a row of numbers. What a maintenance reports goes into lent numbers too.
ghost use Rattle.std.specs.Prelude.{true, false, List, ◌≡◌, ℕ, Float, length};
ghost use Rattle.pid_table.specs.Rows.{table_of};
ghost use Rattle.passes.specs.Rows.{ledger_of};
ghost use Rattle.manager.specs.declared.Event.TheVariants.{ProfilePidsChanged, Waiting, Consumed};
ghost use Rattle.manager.specs.Calls.{maintain_of, finish_of, register_of, start_of, noted_of, handle_of};
ghost use Rattle.manager.specs.Rows.{manager_of, noted_in, answer_of};

use crate::Event;
use control::outbox::Outbox;
use passes::{Pass, Terms};
use pid_table::WaitDuration;
use report::metrics::CacheMetrics;
use report::summary::Summary;

// The manager but for its table.
#[derive(Clone, Copy)]
pub struct Core {
    pub metrics: CacheMetrics,
    // last_maintenance, or the start
    pub last: u64,
}

// What an event leaves beside the table, and sends.
#[derive(Clone, Copy)]
pub struct Kept {
    pub core: Core,
    pub outbox: Outbox,
}

// What a call leaves beside the table, sends and reports.
#[derive(Clone, Copy)]
pub struct Handled {
    pub core: Core,
    pub outbox: Outbox,
    pub summary: Summary,
}

fn maintain(
    table: &mut [[u64; 8]; 256],
    pids: &mut [u8; 256],
    rates: &mut [f32; 256],
    core: Core,
    outbox: Outbox,
    terms: Terms,
) -> Handled
    requires table_len { length table.old ≡ 256 }
    requires pids_len { length pids.old ≡ 256 }
    requires rates_len { length rates.old ≡ 256 }
    ensures table_len_2 { length table.new ≡ 256 }
    ensures pids_len_2 { length pids.new ≡ 256 }
    ensures rates_len_2 { length rates.new ≡ 256 }
    ensures ran_value { result.summary.ran ≡ true }
    ensures result_after { answer_of table.new pids.new rates.new result ≡ maintain_of (manager_of table.old core) outbox terms }
{
    let kept = passes::rows::upkeep(table, outbox, terms);
    let metrics = core.metrics;
    let report = report::rows::report_of(table, metrics, base::elapsed(core.last, terms.now));
    let sent = passes::rows::sweep(table, kept, Pass::Clear, terms);
    let summary = report::summary::hand_on(report, pids, rates);
    let none = report::metrics::none();
    let next = Core {
        metrics: none,
        last: terms.now,
    };
    Handled {
        core: next,
        outbox: sent,
        summary: summary,
    }
}

// The end of each call.
fn finish(
    table: &mut [[u64; 8]; 256],
    pids: &mut [u8; 256],
    rates: &mut [f32; 256],
    core: Core,
    outbox: Outbox,
    terms: Terms,
) -> Handled
    requires table_len { length table.old ≡ 256 }
    requires pids_len { length pids.old ≡ 256 }
    requires rates_len { length rates.old ≡ 256 }
    ensures table_len_2 { length table.new ≡ 256 }
    ensures pids_len_2 { length pids.new ≡ 256 }
    ensures rates_len_2 { length rates.new ≡ 256 }
    ensures pids_unchanged { result.summary.ran ≡ false → pids.new ≡ pids.old }
    ensures rates_unchanged { result.summary.ran ≡ false → rates.new ≡ rates.old }
    ensures result_after { answer_of table.new pids.new rates.new result ≡ finish_of (manager_of table.old core) outbox terms }
{
    if crate::due(core.last, terms.now) {
        maintain(table, pids, rates, core, outbox, terms)
    } else {
        let summary = report::summary::none();
        Handled {
            core: core,
            outbox: outbox,
            summary: summary,
        }
    }
}

// What a list of profiles makes of a table, and what is sent because of it.
fn register(table: &mut [[u64; 8]; 256], terms: Terms) -> Outbox
    requires { length table.old ≡ 256 }
    ensures table_len { length table.new ≡ 256 }
    ensures result_after { ledger_of table.new result ≡ register_of terms (table_of table.old) }
{
    let outbox = control::outbox::empty();
    passes::rows::sweep(table, outbox, Pass::Register, terms)
}

// The manager at its start, whatever the table held.
pub fn start(table: &mut [[u64; 8]; 256], terms: Terms) -> Handled
    ensures table_len { length table.new ≡ 256 }
    ensures ran_value { result.summary.ran ≡ false }
    ensures by_index { (pids : List ℕ) (rates : List Float) → answer_of table.new pids rates result ≡ start_of terms }
{
    *table = [[0u64; 8]; 256];
    let sent = register(table, terms);
    let none = report::metrics::none();
    let now = terms.now;
    let core = Core {
        metrics: none,
        last: now,
    };
    let summary = report::summary::none();
    Handled {
        core: core,
        outbox: sent,
        summary: summary,
    }
}

// The profiles have changed.
fn profile_pids_changed(table: &mut [[u64; 8]; 256], core: Core, terms: Terms) -> Kept
    requires { length table.old ≡ 256 }
    ensures table_len { length table.new ≡ 256 }
    ensures result_after { noted_in table.new result ≡ noted_of (manager_of table.old core) terms ProfilePidsChanged }
{
    let told = register(table, terms);
    Kept {
        core: core,
        outbox: told,
    }
}

// A client waits for a PID.
fn waiting(table: &mut [[u64; 8]; 256], core: Core, terms: Terms, pid: u8) -> Kept
    requires { length table.old ≡ 256 }
    ensures table_len { length table.new ≡ 256 }
    ensures result_after { noted_in table.new result ≡ noted_of (manager_of table.old core) terms (Waiting pid) }
{
    let settings = terms.settings;
    let at = pid as usize;
    let row = table[at];
    let before = pid_table::rows::unpack(row);
    let after = pid_table::waiting(before, settings.mode, terms.now);
    let next = pid_table::rows::pack(after);
    table[at] = next;
    let sent = pid_table::told(control::outbox::empty(), pid, before, after);
    Kept {
        core: core,
        outbox: sent,
    }
}

// A client consumed a reading of a PID.
fn consumed(
    table: &mut [[u64; 8]; 256],
    mut core: Core,
    terms: Terms,
    pid: u8,
    wait: WaitDuration,
) -> Kept
    requires { length table.old ≡ 256 }
    ensures table_len { length table.new ≡ 256 }
    ensures result_after { noted_in table.new result ≡ noted_of (manager_of table.old core) terms (Consumed pid wait) }
{
    let settings = terms.settings;
    let at = pid as usize;
    let row = table[at];
    let before = pid_table::rows::unpack(row);
    let promotes = pid_table::promotes(settings.mode, settings.promotion, wait);
    let after = pid_table::consumed(before, promotes, terms.now);
    let next = pid_table::rows::pack(after);
    table[at] = next;
    let metrics = core.metrics;
    let counted = report::metrics::noted(metrics, wait);
    core.metrics = counted;
    let sent = pid_table::told(control::outbox::empty(), pid, before, after);
    Kept {
        core: core,
        outbox: sent,
    }
}

// What an event leaves and sends, without maintenance.
fn note(table: &mut [[u64; 8]; 256], core: Core, terms: Terms, event: Event) -> Kept
    requires { length table.old ≡ 256 }
    ensures table_len { length table.new ≡ 256 }
    ensures result_after { noted_in table.new result ≡ noted_of (manager_of table.old core) terms event }
{
    match event {
        Event::ProfilePidsChanged => profile_pids_changed(table, core, terms),
        Event::Waiting(pid) => waiting(table, core, terms, pid),
        Event::Consumed(pid, wait) => consumed(table, core, terms, pid, wait),
        Event::Nothing => {
            let nothing = control::outbox::empty();
            Kept {
                core: core,
                outbox: nothing,
            }
        }
    }
}

// A call of the manager: its event, then maintenance if that is due. The report's numbers are written by maintenance alone.
pub fn handle(
    table: &mut [[u64; 8]; 256],
    pids: &mut [u8; 256],
    rates: &mut [f32; 256],
    core: Core,
    terms: Terms,
    event: Event,
) -> Handled
    requires table_len { length table.old ≡ 256 }
    requires pids_len { length pids.old ≡ 256 }
    requires rates_len { length rates.old ≡ 256 }
    ensures table_len_2 { length table.new ≡ 256 }
    ensures pids_len_2 { length pids.new ≡ 256 }
    ensures rates_len_2 { length rates.new ≡ 256 }
    ensures pids_unchanged { result.summary.ran ≡ false → pids.new ≡ pids.old }
    ensures rates_unchanged { result.summary.ran ≡ false → rates.new ≡ rates.old }
    ensures result_after { answer_of table.new pids.new rates.new result ≡ handle_of (manager_of table.old core) terms event }
{
    let noted = note(table, core, terms, event);
    let after = noted.core;
    let sent = noted.outbox;
    finish(table, pids, rates, after, sent, terms)
}
