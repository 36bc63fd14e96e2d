// The box's start and its calls with the profiles lent, as a list of records: they are copied into the array that the
// box holds.
#![tactic(auto)]

ghost use Rattle.std.specs.Prelude.{◌≡◌};
ghost use Rattle.dispatch.specs.Dispatch.{call_of, area_of, Promised};
ghost use Rattle.lent_calls.specs.Bringing.{bringing};
ghost use Rattle.obd2.specs.Answer.{answered_in};
ghost use Rattle.obd2.specs.Answers.{PromisedStart};
ghost use Rattle.obd2.specs.History.{start_of, step};
ghost use Rattle.profile_list.specs.Copied.{copied_of};

use config::{Profile, Profiles, Settings};
use obd2::call::{Brought, Call};
use obd2::{Answered, State};

// The box's start. A list of more than 16 profiles is refused by 2 (`start_longer`).
pub fn start(time: u64, settings: Settings, profiles: &[Profile]) -> Answered
    ensures value { answered_in result ≡ start_of time settings (copied_of profiles.now) }
    ensures promised_start { PromisedStart time settings (copied_of profiles.now) (answered_in result) }
{
    let held = profile_list::copied(profiles);
    by_value::start(time, settings, held)
}

// What a call brings, with these profiles in the place of its own.
fn bringing(mut brought: Brought, profiles: Profiles) -> Brought
    ensures { result ≡ bringing brought profiles }
{
    brought.profiles = profiles;
    brought
}

// Applies one call, at a time, to the box. The profiles of a ProfilePidsChanged are the lent ones, whatever `brought`
// has.
pub fn call(
    state: State,
    time: u64,
    call: Call,
    profiles: &[Profile],
    brought: Brought,
    cmd: &[u8],
    area: &mut [u8],
) -> Answered
    ensures value { answered_in result ≡ step state (call_of time call (bringing brought (copied_of profiles.now)) cmd.now area.old) }
    ensures area_after { area.new ≡ area_of state time call (bringing brought (copied_of profiles.now)) cmd.now area.old }
    ensures promised { Promised state (call_of time call (bringing brought (copied_of profiles.now)) cmd.now area.old) (answered_in result) }
{
    let held = profile_list::copied(profiles);
    let brought = bringing(brought, held);
    by_value::call(state, time, call, brought, cmd, area)
}
