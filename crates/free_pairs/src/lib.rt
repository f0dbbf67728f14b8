// The free count of a plan, from the rows of marks that say what is before each event.
// Numbers are cast to fewer bits, which loses nothing, as the check proves: `TryFrom` would need an answer for what can't come.
#![tactic(auto)]

ghost use Rattle.std.specs.Prelude.{◌≤◌, ◌≡◌};
ghost use Rattle.ids.specs.Limits.{most_events};
ghost use Rattle.free_pairs.specs.FreeRows.{SomeOrder, FreeBy, ordered_in};

use ids::ROWS;
use mark_count::count_marks;

// How many marks the first n rows have: one for each two events that are ordered.
fn count_ordered(pred: &[u32; ROWS], n: usize) -> usize
    requires { n ≤ most_events }
    ensures { result ≡ ordered_in pred.now n }
{
    (0..n).map(|v| count_marks(pred, v)).sum()
}

// The free count of a plan of n events: all unordered pairs of two events, less those that are ordered.
#[tactic(auto, using(crate::proofs::Ordered::fits))]
pub fn free_count(pred: &[u32; ROWS], n: usize) -> u32
    requires n_le_most_events { n ≤ most_events }
    requires some_order { SomeOrder pred.now n }
    ensures { FreeBy pred.now n result }
{
    let ordered = count_ordered(pred, n);
    let both_ways = n * n - n;
    (both_ways / 2 - ordered) as u32
}
