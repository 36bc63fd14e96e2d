// An entry of the manager's table as a row of numbers, so that the table can be lent and changed where it lies: an array of
// numbers is lent and stored a number at a time, which an array of structs was slower at.
ghost use Rattle.std.specs.Prelude.{◌≡◌};
ghost use Rattle.pid_table.specs.Rows.{slow_in, priority_in, last_of, info_of, table_of};

use crate::PidInfo;
use config::PidPriority;

fn slow_in(priority: PidPriority) -> u64
    ensures { result ≡ slow_in priority }
{
    match priority {
        PidPriority::Fast => 0,
        PidPriority::Slow => 1,
    }
}

fn priority_in(slow: u64) -> PidPriority
    ensures { result ≡ priority_in slow }
{
    if slow == 0 {
        PidPriority::Fast
    } else {
        PidPriority::Slow
    }
}

fn last_of(known: u64, time: u64) -> Option<u64>
    ensures { result ≡ last_of known time }
{
    (known != 0).then_some(time)
}

// The row of an entry.
pub fn pack(info: PidInfo) -> [u64; 8]
    ensures { info_of result ≡ info }
{
    [
        u64::from(info.tracked),
        slow_in(info.priority),
        u64::from(info.pinned),
        u64::from(info.count),
        u64::from(info.waiter.is_some()),
        info.waiter.unwrap_or(0),
        u64::from(info.consumed.is_some()),
        info.consumed.unwrap_or(0),
    ]
}

// The entry that a row is, whatever numbers it has.
#[tactic(auto, unfolding(crate::specs::Rows::info_of))]
pub fn unpack(row: [u64; 8]) -> PidInfo
    ensures { result ≡ info_of row }
{
    PidInfo {
        tracked: row[0] != 0,
        priority: priority_in(row[1]),
        pinned: row[2] != 0,
        count: (row[3] % 4294967296) as u32,
        waiter: last_of(row[4], row[5]),
        consumed: last_of(row[6], row[7]),
    }
}

// The rows of a whole table.
pub fn pack_all(table: [PidInfo; 256]) -> [[u64; 8]; 256]
    ensures { table_of result ≡ table }
{
    table.map(pack)
}

// The table that rows are.
pub fn unpack_all(rows: [[u64; 8]; 256]) -> [PidInfo; 256]
    ensures { result ≡ table_of rows }
{
    rows.map(unpack)
}
