// The report of a table that is lent, a PID's entry a row of numbers.
ghost use Rattle.std.specs.Prelude.{◌≡◌, length};
ghost use Rattle.pid_table.specs.Rows.{table_of};
ghost use Rattle.report.specs.Report.{report_of};
ghost use Rattle.report.specs.Rates.{no_rates, rates_from};

use crate::metrics::CacheMetrics;
use crate::{Rated, Rates, Report};

// The rates of a table's PIDs over this time.
fn rates_of(table: &[[u64; 8]; 256], elapsed: u64) -> Rates
    requires { length table.now ≡ 256 }
    ensures { result ≡ rates_from elapsed 0 (table_of table.now) no_rates }
{
    let mut found = crate::no_rates();
    for i in 0..256 {
        let info = pid_table::rows::unpack(table[i]);
        if crate::listed(info) {
            let rate = rate::rate(info.count, elapsed);
            let rated = Rated { pid: i as u8, rate };
            found = crate::insert(found, rated);
        }
    }
    found
}

pub fn report_of(table: &[[u64; 8]; 256], metrics: CacheMetrics, elapsed: u64) -> Report
    requires { length table.now ≡ 256 }
    ensures { result ≡ report_of (table_of table.now) metrics elapsed }
{
    let rates = rates_of(table, elapsed);
    let hitrate = rate::hit_rate(metrics.hits, metrics.misses);
    Report {
        ran: true,
        rates,
        metrics,
        hitrate,
    }
}
