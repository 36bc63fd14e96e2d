// Profiles and replies that calls bring, as lists of tokens: a text of tokens, each behind a space. More than the box
// takes are counted all the same, so that it can refuse them. A list with a bad token is none.
#![tactic(auto)]

ghost use Rattle.std.specs.Prelude.{◌≡◌};
ghost use Rattle.history_items.specs.Items.{items_of};
ghost use Rattle.history_lists.specs.Lists.{no_response, profile_onto, reply_onto, profiles_of, response_of};

use config::{Profile, Profiles};
use history_items::Items;
use reply::{MAX_PIDS, Reply, Response};

#[tactic(auto, unfolding(crate::specs::Lists::no_response))]
pub fn no_response() -> Response
    ensures { result ≡ no_response }
{
    let none = reply::empty();
    Response {
        count: 0u8,
        pids: [0u8; 6],
        replies: [none; 6],
    }
}

#[tactic(auto, unfolding(crate::specs::Lists::profile_onto))]
fn add_profile(mut profiles: Profiles, p: Profile) -> Profiles
    ensures { result ≡ profile_onto profiles p }
{
    let n = profiles.count;
    profiles.count = history_items::more(n);
    let i = n as usize;
    if i < 16 {
        profiles.list[i] = p;
        return profiles;
    }
    profiles
}

#[tactic(auto, unfolding(crate::specs::Lists::reply_onto))]
fn add_reply(mut response: Response, pid: u8, r: Reply) -> Response
    ensures { result ≡ reply_onto response pid r }
{
    let n = response.count;
    response.count = history_items::more(n);
    let i = n as usize;
    if i < MAX_PIDS {
        response.pids[i] = pid;
        response.replies[i] = r;
        return response;
    }
    response
}

#[tactic(auto, unfolding(crate::specs::Lists::profiles_from))]
pub fn profiles(s: &[u8]) -> Option<Profiles>
    ensures { result ≡ profiles_of (items_of 32 s.now) }
{
    let mut profiles = config::no_profiles();
    for token in Items::new(s, b' ') {
        let p = history_wishes::profile(token)?;
        profiles = add_profile(profiles, p);
    }
    Some(profiles)
}

#[tactic(auto, unfolding(crate::specs::Lists::response_from))]
pub fn response(s: &[u8]) -> Option<Response>
    ensures { result ≡ response_of (items_of 32 s.now) }
{
    let mut response = no_response();
    for token in Items::new(s, b' ') {
        let read = history_replies::reply(token)?;
        let r = read.reply;
        response = add_reply(response, read.pid, r);
    }
    Some(response)
}
