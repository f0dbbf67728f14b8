// Whether the pairs of a plan have a cycle. Where all of them go to higher numbers, or all to lower ones, that is seen at once, without sorting; so
// it is where events have the order in which they were entered.
#![tactic(auto)]

ghost use Rattle.std.specs.Prelude.{◌≤◌, ◌≡◌};
ghost use Rattle.ids.specs.Limits.{most_pairs};
ghost use Rattle.sorting.specs.InRows.{plan_in};
ghost use Rattle.sorting.specs.Rows.{has_cycle};
ghost use Rattle.rising.specs.Rising.{rising};

use ids::PAIRS;
use sorting::Pairs;

// Whether each pair goes to a higher number. All are looked at, which lets the compiler compare many at once; `all` would stop at the first that does not.
fn rises(count: usize, from: &[u8; PAIRS], to: &[u8; PAIRS]) -> bool
    requires { count ≤ most_pairs }
    ensures { result ≡ rising count from.now to.now }
{
    let mut up = true;
    for (a, b) in from[..count].iter().zip(&to[..count]) {
        up = up & (a < b);
    }
    up
}

// Whether the pairs have a cycle.
#[tactic(auto, using(crate::proofs::Rising::up_no_cycle, crate::proofs::Rising::down_no_cycle))]
pub fn has_cycle(pairs: &Pairs) -> bool
    ensures { result ≡ has_cycle (plan_in pairs.now) }
{
    !rises(pairs.count, pairs.from, pairs.to)
        && !rises(pairs.count, pairs.to, pairs.from)
        && sorting::has_cycle(pairs)
}
