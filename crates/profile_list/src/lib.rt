// The profiles come in as a lent list of records, and go into the array that the box holds.
#![tactic(auto)]

ghost use Rattle.std.specs.Prelude.{◌≡◌};
ghost use Rattle.profile_list.specs.Copied.{copied_of};

use config::{Profile, Profiles};

const MAX_PROFILES: usize = 16;

// The records as they stand in the lent list, if there are no more than 16: of a longer one none is read, and a count of 17
// stands for every list that is too long.
pub fn copied(profiles: &[Profile]) -> Profiles
    ensures { result ≡ copied_of profiles.now }
{
    let n = profiles.len();
    let mut into = config::no_profiles();
    if MAX_PROFILES < n {
        into.count = 17;
        return into;
    }
    let mut list = into.list;
    list[..n].copy_from_slice(profiles);
    Profiles {
        list,
        count: n as u8,
    }
}
