// The tokens behind a line's word. A rest is empty, or a space and a token, and so on.
ghost use Rattle.std.specs.Prelude.{◌≡◌};
ghost use Rattle.history_items.specs.Items.{items_of};
ghost use Rattle.history_items.specs.Tokens.{first_of, rest_of, none_of};

use super::cut;

// The first token; an empty one, which no token may be, where there is none.
#[tactic(auto, using(crate::specs::Tokens::first_none), unfolding(crate::specs::Tokens::first_of))]
pub fn first(rest: &[u8]) -> &[u8]
    ensures { result.now ≡ first_of (items_of 32 rest.now) }
{
    let Some((first, _)) = cut(rest, b' ') else {
        return rest;
    };
    first
}

// What stands behind the first token.
#[tactic(auto, unfolding(crate::specs::Tokens::rest_of))]
pub fn behind(rest: &[u8]) -> &[u8]
    ensures { items_of 32 result.now ≡ rest_of (items_of 32 rest.now) }
{
    let Some((_, behind)) = cut(rest, b' ') else {
        return rest;
    };
    behind
}

// Whether no token is left.
#[tactic(auto, using(crate::specs::Tokens::none_is))]
pub fn is_end(rest: &[u8]) -> bool
    ensures { result ≡ none_of (items_of 32 rest.now) }
{
    rest.is_empty()
}
