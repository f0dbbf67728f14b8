// The shares of a flow row, written from the start of a lent part of it. What follows them stays.
#![tactic(auto)]

ghost use Rattle.std.specs.Prelude.{◌≤◌, length, get_or};
ghost use Rattle.finite.specs.Filled.{Filled};
ghost use Rattle.ids.specs.Limits.{most_events};

use ids::EVENTS;

// Writes the shares of n events. It is lent the part of a flow row that is theirs, and told nothing of the pairs.
pub fn write_shares(part: &mut [u32], share: &[u32; EVENTS], n: usize)
    requires { (n ≤ length part.old) × (n ≤ most_events) }
    ensures { Filled (λ v. get_or share.now v 0) n part.old part.new }
{
    part[..n].copy_from_slice(&share[..n]);
}
