// The report of a maintenance: how often clients consumed each PID, and how often the cache had a reading.
#![tactic(auto)]

pub mod metrics;
pub mod rows;
pub mod summary;

ghost use Rattle.std.specs.Prelude.{◌≡◌};
ghost use Rattle.report.specs.Report.{no_report};
ghost use Rattle.report.specs.Rates.{ahead_of, listed_of, insert_of, no_rates};

use metrics::CacheMetrics;
use pid_table::PidInfo;

// How often a PID was consumed in a second.
#[derive(Clone, Copy)]
pub struct Rated {
    pub pid: u8,
    pub rate: f32,
}

// The first `count` of `list`. An array with its count, since the box runs in fixed memory.
#[derive(Clone, Copy)]
pub struct Rates {
    pub list: [Rated; 256],
    pub count: u16,
}

// The order of the report: the highest rate first, equal rates by rising PID.
#[tactic(auto, unfolding(crate::specs::Rates::ahead_of))]
fn ahead(one: Rated, other: Rated) -> bool
    ensures { result ≡ ahead_of one other }
{
    other.rate < one.rate || (other.rate == one.rate && one.pid < other.pid)
}

// Tracked, and consumed since the counts were cleared.
#[tactic(auto, unfolding(crate::specs::Rates::listed_of))]
fn listed(info: PidInfo) -> bool
    ensures { result ≡ listed_of info }
{
    info.tracked && 0 < info.count
}

fn no_rates() -> Rates
    ensures { result ≡ no_rates }
{
    let unused = Rated { pid: 0, rate: 0.0 };
    Rates {
        list: [unused; 256],
        count: 0,
    }
}

// One more in its place; in a full list nothing changes.
fn insert(mut rates: Rates, rated: Rated) -> Rates
    ensures { result ≡ insert_of rates rated }
{
    if 256 <= rates.count {
        return rates;
    }
    let n = rates.count as usize;
    let mut carried = rated;
    for i in 0..n {
        let here = rates.list[i];
        if ahead(carried, here) {
            rates.list[i] = carried;
            carried = here;
        }
    }
    rates.list[n] = carried;
    rates.count += 1;
    rates
}

// What a maintenance answers. The mean wait stays undivided: the total and the misses.
#[derive(Clone, Copy)]
pub struct Report {
    // whether maintenance ran in the call; if not, there is nothing in the report
    pub ran: bool,
    pub rates: Rates,
    pub metrics: CacheMetrics,
    // how many of a hundred readings the cache had
    pub hitrate: f32,
}

pub fn no_report() -> Report
    ensures { result ≡ no_report }
{
    Report {
        ran: false,
        rates: no_rates(),
        metrics: metrics::none(),
        hitrate: 0.0,
    }
}
