// Items of a list, each behind a byte that parts it from what stands before: the tokens behind a line's word,
// the lines of a reply.
#![tactic(auto)]

ghost use Rattle.std.specs.Prelude.{◌≡◌, [], ◌∷◌, MatchOption};
ghost use Rattle.history_items.specs.Items.{items_of, items_left, more_of};

// the tokens behind a line's word
pub mod rest;

// The items that are left of a text, one after the other.
#[derive(Clone, Copy)]
pub struct Items<'a> {
    rest: &'a [u8],
    parting: u8,
}

impl<'a> Items<'a> {
    pub fn new(rest: &'a [u8], parting: u8) -> Items<'a>
        ensures { items_left result ≡ items_of parting rest.now }
    {
        Items { rest, parting }
    }
}

impl<'a> Iterator for Items<'a> {
    ghost use Rattle.std.specs.Iterator.{YieldsFirstRef, item_count};

    type Item = &'a [u8];

    ghost next_gives = { YieldsFirstRef items_left };

    ghost remaining = { item_count items_left };

    fn next(&mut self) -> Option<&'a [u8]> {
        let (item, behind) = cut(self.rest, self.parting)?;
        self.rest = behind;
        Some(item)
    }
}

// The first item, and what stands behind it; none of no text.
#[tactic(auto, using(text::specs::Cut::place_le, crate::specs::Items::split_first), unfolding(crate::specs::Items::items_of))]
fn cut(s: &[u8], b: u8) -> Option<(&[u8], &[u8])>
    ensures { MatchOption result (items_of b s.now ≡ []) (λ cut. items_of b s.now ≡ cut.0.now ∷ items_of b cut.1.now) }
{
    let (_, items) = s.split_first()?;
    Some(items.split_at(text::until(items, b)))
}

// One more, as a count of 8 bits has it: it stops at 255.
#[tactic(auto, unfolding(crate::specs::Items::more_of))]
pub fn more(count: u8) -> u8
    ensures { result ≡ more_of count }
{
    count.saturating_add(1)
}
