// The two f32 figures of the maintenance report, step by step as the Rust computes them: the rate
// at which a PID is consumed, and the hit rate of the cache.
#![tactic(auto)]

ghost use Rattle.std.specs.Prelude.{◌≡◌, ◌≤◌, min, max};
ghost use Rattle.rate.specs.Rate.{seconds_of, rate_of, hit_rate_of, most_counted, longest};

// The box refuses a count that would pass this.
const MOST_COUNTED: u32 = 16777215;

// The last time that the box takes, in milliseconds.
const LONGEST: u64 = 16777215999;

// A count as the box counts it.
fn counted(count: u32) -> u32
    ensures { result ≡ min count most_counted }
{
    count.min(MOST_COUNTED)
}

// Maintenance runs after 2,000 or more. A time of 0 counts as 1, so that nothing is divided by 0.
fn lasting(elapsed: u64) -> u64
    ensures { result ≡ max 1 (min elapsed longest) }
{
    elapsed.min(LONGEST).max(1)
}

// Milliseconds as seconds: the Rust's `as_secs_f32`.
fn seconds(elapsed: u64) -> f32
    requires { elapsed ≤ longest }
    ensures { result ≡ seconds_of elapsed }
{
    let whole = (elapsed / 1000) as f32;
    let nanoseconds = (elapsed % 1000 * 1000000) as u32;
    whole + std::num::nearest_u32_to_f32(nanoseconds) / 1000000000.0
}

// How often a second, for a count over a time in milliseconds.
pub fn rate(count: u32, elapsed: u64) -> f32
    ensures { result ≡ rate_of count elapsed }
{
    let whole = counted(count) as f32;
    whole / seconds(lasting(elapsed))
}

// How many in a hundred of the requests were hits; 0 if there were none.
pub fn hit_rate(hits: u32, misses: u32) -> f32
    ensures { result ≡ hit_rate_of hits misses }
{
    let found = counted(hits);
    let total = counted(found + counted(misses));
    if total == 0 {
        return 0.0;
    }
    100.0 * (found as f32) / (total as f32)
}
