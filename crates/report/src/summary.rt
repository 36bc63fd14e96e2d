// A report as a call hands it on: its list as lent numbers, and the small rest by value.
ghost use Rattle.std.specs.Prelude.{false, ◌≡◌, length};
ghost use Rattle.base.specs.Choice.{pick};
ghost use Rattle.report.specs.Report.{no_report};
ghost use Rattle.report.specs.Summary.{no_summary, report_in};

use crate::metrics::CacheMetrics;
use crate::{Rated, Report};

#[derive(Clone, Copy)]
pub struct Summary {
    // whether maintenance ran in the call; if not, the numbers are no report
    pub ran: bool,
    // how many PIDs the report lists
    pub count: u16,
    pub metrics: CacheMetrics,
    pub hitrate: f32,
}

// Of a call without maintenance.
pub fn none() -> Summary
    ensures { result ≡ no_summary }
{
    Summary {
        ran: false,
        count: 0,
        metrics: crate::metrics::none(),
        hitrate: 0.0,
    }
}

// The report into the lent numbers. One that did not run leaves them as they are.
pub fn hand_on(report: Report, pids: &mut [u8; 256], rates: &mut [f32; 256]) -> Summary
    requires pids_len { length pids.old ≡ 256 }
    requires rates_len { length rates.old ≡ 256 }
    ensures pids_len_2 { length pids.new ≡ 256 }
    ensures rates_len_2 { length rates.new ≡ 256 }
    ensures result_after { report_in pids.new rates.new result ≡ pick report.ran report no_report }
    ensures ran_value { result.ran ≡ report.ran }
    ensures pids_unchanged { report.ran ≡ false → pids.new ≡ pids.old }
    ensures rates_unchanged { report.ran ≡ false → rates.new ≡ rates.old }
{
    if !report.ran {
        return none();
    }
    let list = report.rates.list;
    for i in 0..256 {
        let rated = list[i];
        pids[i] = rated.pid;
        rates[i] = rated.rate;
    }
    Summary {
        ran: true,
        count: report.rates.count,
        metrics: report.metrics,
        hitrate: report.hitrate,
    }
}

// The report that was handed on.
pub fn report(pids: &[u8; 256], rates: &[f32; 256], summary: Summary) -> Report
    requires pids_len { length pids.now ≡ 256 }
    requires rates_len { length rates.now ≡ 256 }
    ensures { result ≡ report_in pids.now rates.now summary }
{
    if !summary.ran {
        return crate::no_report();
    }
    let mut listed = crate::no_rates();
    for i in 0..256 {
        let rated = Rated {
            pid: pids[i],
            rate: rates[i],
        };
        listed.list[i] = rated;
    }
    listed.count = summary.count;
    Report {
        ran: true,
        rates: listed,
        metrics: summary.metrics,
        hitrate: summary.hitrate,
    }
}
