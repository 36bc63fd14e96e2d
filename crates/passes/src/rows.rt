// A pass over the table where it lies: lent, a PID's entry a row of numbers.
ghost use Rattle.std.specs.Prelude.{◌≡◌, length};
ghost use Rattle.passes.specs.Sweep.{entry_after, sweep_of, sweeps_of, upkeep};
ghost use Rattle.passes.specs.Rows.{entry_by, column_of, rests_by, ledger_of};

use crate::{Pass, Terms};
use config::Settings;
use control::outbox::Outbox;
use pid_table::{PidInfo, Wish};

// What a pass makes of an entry whose PID is wanted so.
#[tactic(auto, unfolding(crate::specs::Rows::entry_by))]
fn entry_by(pass: Pass, settings: Settings, now: u64, wish: Wish, info: PidInfo) -> PidInfo
    ensures { result ≡ entry_by pass settings now wish info }
{
    match pass {
        Pass::Register => pid_table::registered(info, wish, now),
        Pass::Demote => pid_table::demoted(info, settings.demotion, settings.removal, now),
        Pass::Remove => pid_table::removed(info, settings.removal, now),
        Pass::Clear => pid_table::cleared(info),
    }
}

// The number of a row that a pass looks at first: whether its PID is pinned, is in the table at all, or was consumed.
#[tactic(auto, unfolding(crate::specs::Rows::column_of))]
fn column_of(pass: Pass) -> usize
    ensures { result ≡ column_of pass }
{
    match pass {
        Pass::Register => 2,
        Pass::Demote => 0,
        Pass::Remove => 0,
        Pass::Clear => 3,
    }
}

// Whether a pass is sure to leave a row as it is, told from that number and the wish: most PIDs are not in the table, and this
// test costs less than to make their entries anew.
#[tactic(auto, unfolding(crate::specs::Rows::rests_by))]
fn rests(number: u64, wish: Wish) -> bool
    ensures { result ≡ rests_by number wish }
{
    number == 0 && wish.is_none()
}

// One pass over the table; what it tells goes into the outbox.
pub fn sweep(table: &mut [[u64; 8]; 256], mut outbox: Outbox, pass: Pass, terms: Terms) -> Outbox
    requires { length table.old ≡ 256 }
    ensures table_len { length table.new ≡ 256 }
    ensures result_after { ledger_of table.new result ≡ sweep_of (entry_after pass terms) (ledger_of table.old outbox) }
{
    let profiles = terms.profiles;
    let settings = terms.settings;
    let wishes = crate::wishes::wishes_for(pass, profiles);
    let column = column_of(pass);
    for i in 0..256 {
        let wish = wishes[i];
        if !rests(table[i][column], wish) {
            let before = pid_table::rows::unpack(table[i]);
            let after = entry_by(pass, settings, terms.now, wish, before);
            table[i] = pid_table::rows::pack(after);
            // most entries keep their speed, and then the outbox is not touched
            if !pid_table::same_speed(before, after) {
                outbox = pid_table::told(outbox, i as u8, before, after);
            }
        }
    }
    outbox
}

// The passes of maintenance up to the report.
pub fn upkeep(table: &mut [[u64; 8]; 256], outbox: Outbox, terms: Terms) -> Outbox
    requires { length table.old ≡ 256 }
    ensures table_len { length table.new ≡ 256 }
    ensures result_after { ledger_of table.new result ≡ sweeps_of terms upkeep (ledger_of table.old outbox) }
{
    let registered = sweep(table, outbox, Pass::Register, terms);
    let demoted = sweep(table, registered, Pass::Demote, terms);
    sweep(table, demoted, Pass::Remove, terms)
}
