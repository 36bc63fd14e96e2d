// A line of a history as a call of the box: history-format.md, "Calls of the box". Empty lines, comments and
// lines that are too long are not handed in here. A line is read in two stages: `parse` tells what it is, and what it
// brings is read by the functions of `brought`, for those lines alone that bring a list. What both come to is
// `two_stages` of specs/.
#![tactic(auto)]

ghost use Rattle.std.specs.Prelude.{◌≡◌, length};
ghost use Rattle.history_items.specs.Items.{split_of, items_of};
ghost use Rattle.history.specs.Lines.{nothing_brought, untimed_of, line_of, lent_of};

use history_calls::{Line, bringing};
use history_items::rest;
use obd2::call::Brought;

// what a line brings
pub mod brought;

// What no call has brought yet.
#[tactic(auto, unfolding(crate::specs::Lines::nothing_brought))]
pub fn nothing() -> Brought
    ensures { result ≡ nothing_brought }
{
    Brought {
        profiles: config::no_profiles(),
        response: history_lists::no_response(),
        session: bringing::no_session(),
        outcome: bringing::no_outcome(),
    }
}

// A line without a time: `show`, or none that follows the page.
#[tactic(auto, unfolding(crate::specs::Lines::untimed_of))]
fn untimed(word: &[u8], rest: &[u8]) -> Option<Line>
    ensures { result ≡ untimed_of word.now (items_of 32 rest.now) }
{
    if text::is(word, b"show") && rest::is_end(rest) {
        return Some(Line::Show);
    }
    None
}

// What a line is, none where it does not follow the page. The bytes of a command stand at the start of `bytes` then; a
// command that has no room there is bad.
#[tactic(auto, using(text::specs::Cut::place_le, history_items::specs::Items::split_first), unfolding(crate::specs::Lines::line_of, crate::specs::Lines::lent_of))]
pub fn parse(line: &[u8], bytes: &mut [u8]) -> Option<Line>
    ensures value { result ≡ line_of (length bytes.old) (split_of 32 line.now) }
    ensures bytes_after { bytes.new ≡ lent_of bytes.old (split_of 32 line.now) }
{
    let (word, rest) = line.split_at(text::until(line, b' '));
    match numeral::read(rest::first(rest), u64::MAX) {
        Some(time) => history_calls::timed(
            history_words::of(word)?,
            time,
            rest::behind(rest),
            bytes,
        ),
        None => untimed(word, rest),
    }
}
