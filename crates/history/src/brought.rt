// What a line brings that `parse` told to bring a list: the second reading of the line. Where the list is bad, so is
// the line: it brings none.
ghost use Rattle.std.specs.Prelude.{◌≡◌};
ghost use Rattle.history_items.specs.Items.{split_of, items_of};
ghost use Rattle.history_items.specs.Tokens.{rest_of};
ghost use Rattle.history_lists.specs.Lists.{profiles_of, response_of};
ghost use Rattle.history_calls.specs.Bringing.{session_of, outcome_of};
ghost use Rattle.history.specs.Lines.{behind_time};

use history_calls::bringing;
use config::Profiles;
use history_items::rest;
use link::Session;
use reply::Response;
use rounds::Outcome;

// What stands behind a line's word and its time.
#[tactic(auto, using(text::specs::Cut::place_le, history_items::specs::Items::split_first), unfolding(crate::specs::Lines::behind_time, history_items::specs::Tokens::rest_of))]
fn behind_time(line: &[u8]) -> &[u8]
    ensures { items_of 32 result.now ≡ behind_time (split_of 32 line.now) }
{
    let (_, rest) = line.split_at(text::until(line, b' '));
    rest::behind(rest)
}

// start T SETTINGS PROFILE..
pub fn start_profiles(line: &[u8]) -> Option<Profiles>
    ensures { result ≡ profiles_of (rest_of (behind_time (split_of 32 line.now))) }
{
    history_lists::profiles(rest::behind(behind_time(line)))
}

// profiles T PROFILE..
pub fn profiles(line: &[u8]) -> Option<Profiles>
    ensures { result ≡ profiles_of (behind_time (split_of 32 line.now)) }
{
    history_lists::profiles(behind_time(line))
}

// response T REPLY..
pub fn response(line: &[u8]) -> Option<Response>
    ensures { result ≡ response_of (behind_time (split_of 32 line.now)) }
{
    history_lists::response(behind_time(line))
}

// connect T 1 KNOWN STATE and eight RANGEs
pub fn session(line: &[u8]) -> Option<Session>
    ensures { result ≡ session_of (rest_of (behind_time (split_of 32 line.now))) }
{
    bringing::session(rest::behind(behind_time(line)))
}

// result T KIND STATE LEARNT.. `due` says whether a result is due, and `asked` how many PIDs its query has.
pub fn outcome(line: &[u8], due: bool, asked: usize) -> Option<Outcome>
    ensures { result ≡ outcome_of due asked (behind_time (split_of 32 line.now)) }
{
    bringing::outcome(behind_time(line), due, asked)
}
