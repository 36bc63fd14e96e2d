// The connection but for what is lent: the known lengths, and the ranges as rows of numbers.
ghost use Rattle.std.specs.Prelude.{Bool, List, ◌≡◌, ℕ};
ghost use Rattle.link.specs.Rules.{start_link, connect_of, fail_of, loss_of, reconnect_of};
ghost use Rattle.link.specs.Core.{link_of, linked_in, checked_in};
ghost use Rattle.link.specs.Ranges.{replies_in, replies_of, no_replies, replies_by};

use super::ranges::{RANGE_ROW, RANGES};
use super::{Connecting, FeatureSupport, Features, Session};

#[derive(Clone, Copy)]
pub struct Core {
    pub connected: bool,
    pub features: Features,
    pub attempt: Option<u64>,
}

// The connection after an outcome of connecting, and what is said to it.
#[derive(Clone, Copy)]
pub struct Tried {
    pub core: Core,
    pub said: Connecting,
}

// The connection after a reconnect check, and whether one may be tried.
#[derive(Clone, Copy)]
pub struct Looked {
    pub core: Core,
    pub yes: bool,
}

// No connection, and none tried, whatever the arrays had.
#[tactic(auto, unfolding(crate::specs::Rules::start_link), using(crate::specs::Ranges::ranges_blank, crate::specs::Ranges::replies_blank))]
pub fn start(known: &mut [bool; 256], ranges: &mut [[u8; RANGE_ROW]; RANGES]) -> Core
    ensures result_after { link_of known.new ranges.new result ≡ start_link }
    ensures behind { replies_in ranges.new ≡ no_replies }
{
    *known = [false; 256];
    *ranges = super::ranges::blank();
    Core {
        connected: false,
        features: Features {
            multi: FeatureSupport::Unknown,
        },
        attempt: None,
    }
}

// A connection was made.
#[tactic(auto, unfolding(crate::specs::Rules::connect_of, crate::specs::Ranges::replies_by))]
pub fn connect(
    known: &mut [bool; 256],
    ranges: &mut [[u8; RANGE_ROW]; RANGES],
    mut core: Core,
    s: Session,
) -> Tried
    ensures result_after { linked_in known.new ranges.new result ≡ connect_of (link_of known.old ranges.old core) s }
    ensures behind { replies_in ranges.new ≡ replies_by result.said (replies_of s.ranges) (replies_in ranges.old) }
{
    if core.connected {
        return Tried {
            core,
            said: Connecting::Already,
        };
    }
    let lengths = s.known;
    *known = lengths;
    *ranges = super::ranges::pack_all(s.ranges);
    core.connected = true;
    core.features = s.features;
    Tried {
        core,
        said: Connecting::Connected,
    }
}

// A connection was tried and not made.
#[tactic(auto, unfolding(crate::specs::Rules::fail_of, crate::specs::Ranges::replies_by), using(crate::specs::Ranges::ranges_blank, crate::specs::Ranges::replies_blank))]
pub fn fail(ranges: &mut [[u8; RANGE_ROW]; RANGES], core: Core) -> Tried
    ensures result_after { (known : List Bool) → linked_in known ranges.new result ≡ fail_of (link_of known ranges.old core) }
    ensures behind { replies_in ranges.new ≡ replies_by result.said no_replies (replies_in ranges.old) }
{
    if core.connected {
        return Tried {
            core,
            said: Connecting::Already,
        };
    }
    *ranges = super::ranges::blank();
    Tried {
        core,
        said: Connecting::Failed,
    }
}

// The connection was lost.
#[tactic(auto, unfolding(crate::specs::Rules::loss_of), using(crate::specs::Ranges::ranges_blank, crate::specs::Ranges::replies_blank))]
pub fn lose(ranges: &mut [[u8; RANGE_ROW]; RANGES], mut core: Core) -> Core
    ensures result_after { (known : List Bool) → link_of known ranges.new result ≡ loss_of (link_of known ranges.old core) }
    ensures behind { replies_in ranges.new ≡ no_replies }
{
    *ranges = super::ranges::blank();
    core.connected = false;
    core
}

// A reconnect check. While connected it changes nothing and says no.
#[tactic(auto, unfolding(crate::specs::Rules::reconnect_of))]
pub fn reconnect(mut core: Core, time: u64) -> Looked
    ensures { (known : List Bool) (ranges : List (List ℕ)) → checked_in known ranges result ≡ reconnect_of (link_of known ranges core) time }
{
    if core.connected {
        return Looked { core, yes: false };
    }
    let yes = super::rested(core.attempt, time);
    if yes {
        core.attempt = Some(time);
    }
    Looked { core, yes }
}
