// What the profiles in force want of every PID. A pass has it all by one walk over the profiles.
ghost use Rattle.std.specs.Prelude.{◌≡◌, ℕ, ◌<◌, get_or, replicate, None, Some};
ghost use Rattle.passes.specs.Wishes.{priority_of, joined, wish_of};
ghost use Rattle.passes.specs.Wanted.{wish_for};

use crate::Pass;
use config::{PidPriority, Profile, Profiles};
use pid_table::Wish;

#[tactic(auto, unfolding(crate::specs::Wishes::priority_of))]
fn priority_of(number: u8) -> PidPriority
    ensures { result ≡ priority_of number }
{
    if number == 0 {
        PidPriority::Fast
    } else {
        PidPriority::Slow
    }
}

// A PID's wish with one more: Fast is never lowered.
#[tactic(auto, unfolding(crate::specs::Wishes::joined))]
fn joined(wish: Wish, priority: PidPriority) -> Wish
    ensures { result ≡ joined wish (Some priority) }
{
    let fast = wish.is_some_and(pid_table::is_fast);
    Some(pid_table::promoted_if(fast, priority))
}

fn none() -> [Wish; 256]
    ensures { result ≡ replicate 256 None }
{
    [None; 256]
}

// The wishes of these profiles.
fn wishes(profiles: &[Profile]) -> [Wish; 256]
    ensures { (p : ℕ) → p < 256 → get_or result p None ≡ wish_of profiles.now p }
{
    let mut found = none();
    for profile in profiles {
        if crate::counts(profile.kind, profile.enabled) {
            let at = profile.pid as usize;
            found[at] = joined(found[at], priority_of(profile.priority));
        }
    }
    found
}

// The wishes that a pass goes by: none but registering goes by any.
pub fn wishes_for(pass: Pass, profiles: Profiles) -> [Wish; 256]
    ensures { (p : ℕ) → p < 256 → get_or result p None ≡ wish_for pass profiles p }
{
    match pass {
        Pass::Register => wishes(&profiles.list[..16.min(profiles.count as usize)]),
        Pass::Demote => none(),
        Pass::Remove => none(),
        Pass::Clear => none(),
    }
}
