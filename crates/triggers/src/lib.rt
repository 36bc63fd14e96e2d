// Triggered profiles, switched off by a value above their threshold (the Rust's check_triggered_auto_disable).
#![tactic(auto)]

ghost use Rattle.std.specs.Prelude.{◌≡◌, ◌≤◌};
ghost use Rattle.triggers.specs.Rules.{in_force_of, crossed_of, switched_of, switch_of, notice_of};

use config::{Profile, Profiles};

// The most profiles, and the kind of a triggered one.
const MOST: usize = 16;

const TRIGGERED: u8 = 2;

// How many profiles are in force: a count above 16 is 16.
#[tactic(auto, unfolding(crate::specs::Rules::in_force_of))]
fn in_force(count: u8) -> usize
    ensures { (result ≡ in_force_of count) × (result ≤ 16) }
{
    MOST.min(count as usize)
}

// Whether a value of the PID switches the profile off.
#[tactic(auto, unfolding(crate::specs::Rules::crossed_of))]
fn crossed(profile: &Profile, pid: u8, value: u32) -> bool
    ensures { result ≡ crossed_of pid value profile.now }
{
    profile.kind == TRIGGERED
        && profile.enabled
        && profile.pid == pid
        && profile.threshold.is_some_and(|threshold| threshold < value)
}

#[tactic(auto, unfolding(crate::specs::Rules::switched_of))]
fn switched(mut profile: Profile, pid: u8, value: u32) -> Profile
    ensures { result ≡ switched_of pid value profile }
{
    if crossed(&profile, pid, value) {
        profile.enabled = false;
    }
    profile
}

// The profiles after a value of the PID.
pub fn switch(mut profiles: Profiles, pid: u8, value: u32) -> Profiles
    ensures { result ≡ switch_of pid value profiles }
{
    let n = in_force(profiles.count);
    let mut list = profiles.list;
    for i in 0..n {
        list[i] = switched(list[i], pid, value);
    }
    profiles.list = list;
    profiles
}

// Whether a value of the PID switches some profile off: one notice, however many they are.
#[tactic(auto, unfolding(crate::specs::Rules::notice_of))]
pub fn notice(profiles: Profiles, pid: u8, value: u32) -> bool
    ensures { result ≡ notice_of pid value profiles }
{
    let in_force = &profiles.list[..in_force(profiles.count)];
    in_force.iter().any(|profile| crossed(profile, pid, value))
}
