// Which settings and lists of profiles the box refuses (its refusal 2).
#![tactic(auto)]

ghost use Rattle.std.specs.Prelude.{◌≡◌};
ghost use Rattle.std.specs.List.{count_by, list_any};
ghost use Rattle.profile_check.specs.Check.{unknown_mode, unknown_of, normal, bad_profiles};

use config::{Profile, Profiles};

// Neither Interval (0) nor Ratio (1).
#[tactic(auto, unfolding(crate::specs::Check::unknown_mode))]
pub fn unknown_mode(mode: u8) -> bool
    ensures { result ≡ unknown_mode mode }
{
    1 < mode
}

// A kind above 2 or a priority above 1.
#[tactic(auto, unfolding(crate::specs::Check::unknown_of))]
fn unknown(profile: Profile) -> bool
    ensures { result ≡ unknown_of profile }
{
    2 < profile.kind || 1 < profile.priority
}

// How many of them are active normal ones.
fn normals(profiles: &[Profile]) -> usize
    ensures { result ≡ count_by normal profiles.now }
{
    profiles.iter().filter(|profile| profile.kind == 0).count()
}

fn some_unknown(profiles: &[Profile]) -> bool
    ensures { result ≡ list_any unknown_of profiles.now }
{
    profiles.iter().any(|profile| unknown(*profile))
}

// Over 16, two active normal ones, or an unknown kind or priority.
#[tactic(auto, unfolding(crate::specs::Check::bad_profiles, config::specs::InForce::in_force))]
pub fn bad_profiles(profiles: Profiles) -> bool
    ensures { result ≡ bad_profiles profiles }
{
    if 16 < profiles.count {
        return true;
    }
    let handed_in = &profiles.list[..profiles.count as usize];
    1 < normals(handed_in) || some_unknown(handed_in)
}
