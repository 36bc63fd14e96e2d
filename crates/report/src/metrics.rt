// How often the cache had a reading (the Rust's CacheMetrics), cleared by each maintenance.
ghost use Rattle.std.specs.Prelude.{◌≡◌};
ghost use Rattle.report.specs.Metrics.{no_metrics, longer_by, noted_of, overlong_of, full_of, refused_of};

use pid_table::WaitDuration;

#[derive(Clone, Copy)]
pub struct CacheMetrics {
    pub hits: u32,
    pub misses: u32,
    // total_wait_time of the misses
    pub wait: u64,
}

pub fn none() -> CacheMetrics
    ensures { result ≡ no_metrics }
{
    CacheMetrics {
        hits: 0,
        misses: 0,
        wait: 0,
    }
}

// A total with a wait more; it stops at the largest number of its 64 bits.
#[tactic(auto, unfolding(crate::specs::Metrics::longer_by))]
fn longer_by(total: u64, wait: u64) -> u64
    ensures { result ≡ longer_by total wait }
{
    total.saturating_add(wait)
}

// A reading was consumed, whether its PID is known or not.
#[tactic(auto, unfolding(crate::specs::Metrics::noted_of))]
pub fn noted(mut metrics: CacheMetrics, wait: WaitDuration) -> CacheMetrics
    ensures { result ≡ noted_of metrics wait }
{
    let Some(time) = wait else {
        metrics.hits = base::more(metrics.hits);
        return metrics;
    };
    metrics.misses = base::more(metrics.misses);
    metrics.wait = longer_by(metrics.wait, time);
    metrics
}

// A wait that is too long to be counted.
#[tactic(auto, unfolding(crate::specs::Metrics::overlong_of))]
fn overlong(wait: WaitDuration) -> bool
    ensures { result ≡ overlong_of wait }
{
    wait.is_some_and(|time| 60000 < time)
}

// No more readings are counted.
#[tactic(auto, unfolding(crate::specs::Metrics::full_of))]
fn full(metrics: CacheMetrics) -> bool
    ensures { result ≡ full_of metrics }
{
    16777215 <= u64::from(metrics.hits) + u64::from(metrics.misses)
}

// Whether the box refuses to note this (its refusal 4).
#[tactic(auto, unfolding(crate::specs::Metrics::refused_of))]
pub fn refused(metrics: CacheMetrics, wait: WaitDuration) -> bool
    ensures { result ≡ refused_of metrics wait }
{
    overlong(wait) || full(metrics)
}
