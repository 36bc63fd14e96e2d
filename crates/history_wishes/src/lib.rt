// SETTINGS and PROFILE: fields parted by commas.
#![tactic(auto)]

ghost use Rattle.std.specs.Prelude.{◌≡◌};
ghost use Rattle.text.specs.Cut.{head_of, tail_of};
ghost use Rattle.history_wishes.specs.Wishes.{settings_of, profile_of};

use config::{Profile, Settings};

// The fields that are left of a token.
#[derive(Clone, Copy)]
struct Fields<'a> {
    left: &'a [u8],
}

impl<'a> Fields<'a> {
    // The next field; behind the last, an empty one.
    fn next(&mut self) -> &'a [u8]
        ensures first { result.now ≡ head_of 44 self.old.left.now }
        ensures others { self.new.left.now ≡ tail_of 44 self.old.left.now }
    {
        let field = text::head(self.left, b',');
        self.left = text::tail(self.left, b',');
        field
    }
}

#[tactic(auto, unfolding(crate::specs::Wishes::settings_of))]
pub fn settings(s: &[u8]) -> Option<Settings>
    ensures { result ≡ settings_of s.now }
{
    if text::count(s, b',') != 7 {
        return None;
    }
    let mut fields = Fields { left: s };
    Some(Settings {
        mode: history_numbers::byte(fields.next())?,
        interval: numeral::read(fields.next(), u64::MAX)?,
        ratio: history_numbers::number32(fields.next())?,
        promotion: numeral::read(fields.next(), u64::MAX)?,
        demotion: numeral::read(fields.next(), u64::MAX)?,
        removal: numeral::read(fields.next(), u64::MAX)?,
        multi: history_numbers::flag(fields.next())?,
        maxpids: history_numbers::byte(fields.next())?,
    })
}

#[tactic(auto, unfolding(crate::specs::Wishes::profile_of))]
pub fn profile(s: &[u8]) -> Option<Profile>
    ensures { result ≡ profile_of s.now }
{
    if text::count(s, b',') != 4 {
        return None;
    }
    let mut fields = Fields { left: s };
    let kind = history_numbers::byte(fields.next())?;
    let pid = hex_text::pid(fields.next())?;
    let priority = history_numbers::byte(fields.next())?;
    let threshold = history_numbers::threshold(fields.next())?;
    let enabled = history_numbers::flag(fields.left)?;
    Some(Profile {
        kind,
        pid,
        priority,
        threshold,
        enabled,
    })
}
