// Settings, profiles and priorities, with the defaults of the Rust's config.rs.
#![tactic(auto)]

ghost use Rattle.std.specs.Prelude.{◌≡◌};
ghost use Rattle.config.specs.Blank.{no_profiles};
ghost use Rattle.config.specs.Defaults.{default_settings};

// How often a PID is polled: from the fast list or from the slow one.
#[derive(Clone, Copy)]
pub enum PidPriority {
    Fast,
    Slow,
}

// Times are whole milliseconds. Beside each field stands its name in config.rs.
#[derive(Clone, Copy)]
pub struct Settings {
    // slow_poll_mode: 0 Interval, 1 Ratio. A number and no enum, since a caller may hand in an
    // unknown one, which the box refuses.
    pub mode: u8,
    // slow_poll_interval_ms
    pub interval: u64,
    // slow_poll_ratio
    pub ratio: u32,
    // promotion_wait_threshold_ms
    pub promotion: u64,
    // fast_demotion_ms
    pub demotion: u64,
    // pid_inactive_removal_ms
    pub removal: u64,
    // use_multi_pid
    pub multi: bool,
    // max_pids_per_query
    pub maxpids: u8,
}

// What a profile of lights asks of the poller (the Rust's LedProfile).
#[derive(Clone, Copy)]
pub struct Profile {
    // 0 the active normal profile, 1 an overlay, 2 a triggered one. A number and no enum, as the priority is, since a caller
    // may hand in an unknown one, which the box refuses.
    pub kind: u8,
    pub pid: u8,
    // 0 Fast, 1 Slow
    pub priority: u8,
    // auto_disable_above
    pub threshold: Option<u32>,
    pub enabled: bool,
}

// The profiles in force: the first `count` of `list`. A count above 16 is a list that the box refuses. An array with its count,
// since the box runs in fixed memory.
#[derive(Clone, Copy)]
pub struct Profiles {
    pub list: [Profile; 16],
    pub count: u8,
}

pub fn default_settings() -> Settings
    ensures { result ≡ default_settings }
{
    Settings {
        mode: 1,
        interval: 450,
        ratio: 6,
        promotion: 40,
        demotion: 2000,
        removal: 4000,
        multi: false,
        maxpids: 6,
    }
}

pub fn no_profiles() -> Profiles
    ensures { result ≡ no_profiles }
{
    let none = Profile {
        kind: 0,
        pid: 0,
        priority: 0,
        threshold: None,
        enabled: false,
    };
    Profiles {
        list: [none; 16],
        count: 0,
    }
}
