// Definitions and laws that the specifications of several crates share, and the arithmetic that their code shares.
#![tactic(auto)]

ghost use Rattle.std.specs.Prelude.{◌≡◌, ◌-◌, ◌≤◌, min, length};
ghost use Rattle.base.specs.Count.{more_of};
ghost use Rattle.base.specs.Write.{over};

// The time from one to the other, 0 where the second comes first.
pub fn elapsed(since: u64, now: u64) -> u64
    ensures { result ≡ now - since }
{
    now.saturating_sub(since)
}

// One more, up to the largest count.
#[tactic(auto, using(crate::specs::Count::more_is))]
pub fn more(n: u32) -> u32
    ensures { result ≡ more_of n }
{
    n.saturating_add(1)
}

pub fn least(a: usize, b: usize) -> usize
    ensures { result ≡ min a b }
{
    a.min(b)
}

// Writes bytes over the start of others.
#[tactic(auto, unfolding(crate::specs::Write::over))]
pub fn copy(from: &[u8], to: &mut [u8])
    requires { length from.now ≤ length to.old }
    ensures { to.new ≡ over to.old 0 from.now }
{
    to[..from.len()].copy_from_slice(from);
}
