// What a line brings, put in the place of what such a line brought before.
use crate::tasks::List;
use history::brought;
use obd2::call::Brought;
use poller::Round;

// How many PIDs the query has whose result is due.
fn named(round: Round) -> usize {
    round.due.count
}

// What the calls brought, with the list of this line; `None` where that list is bad.
pub(crate) fn bring(
    mut brought: Brought,
    list: List,
    line: &[u8],
    round: Round,
) -> Option<Brought> {
    match list {
        List::StartProfiles => brought.profiles = brought::start_profiles(line)?,
        List::Profiles => brought.profiles = brought::profiles(line)?,
        List::Response => brought.response = brought::response(line)?,
        List::Session => brought.session = brought::session(line)?,
        List::Outcome => {
            brought.outcome = brought::outcome(line, poller::due(round), named(round))?
        }
    }
    Some(brought)
}
