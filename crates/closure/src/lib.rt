// "Before" in rows of marks, worked out pair by pair: events are taken in an order in which what is before comes first, and each pair has the row of
// its earlier event joined into that of its later one once. Which pairs are skeleton pairs.
// A list of pairs is walked by its links: an iterator would be no plainer.
// Bytes and numbers of pairs are cast to `usize`: with `usize::from` the proofs of these loops didn't close, since an invariant then speaks of a call's result.
#![tactic(auto)]

ghost use Rattle.std.specs.Prelude.{◌+◌, ◌<◌, not, ◌≡◌};
ghost use Rattle.closure.specs.Carried.{Within, RowCarried};
ghost use Rattle.closure.specs.InOrder.{CarriedTo};
ghost use Rattle.closure.specs.PlanRows.{Predecessors};
ghost use Rattle.ids.specs.Limits.{most_events};
ghost use Rattle.marks.specs.Marks.{meeting};
ghost use Rattle.sorting.specs.Arranged.{Sorted};
ghost use Rattle.sorting.specs.InRows.{plan_in};

use ids::{Event, ROWS};
use sorting::{Pairs, Sorting};

// Joins the row of one event, and the event itself, into the row of another.
fn carry(rows: &mut [u32; ROWS], one: Event, other: Event)
    requires { (one.0 < most_events) × (other.0 < most_events) }
    ensures { RowCarried rows.old rows.new one.0 other.0 }
{
    marks::join(rows, one.0, other.0);
    marks::mark(rows, other.0, one.0);
}

// What is before the event at h in the queue is before those that it has a pair to, and so is the event.
fn carry_pairs(pairs: &Pairs, sorting: &Sorting, h: usize, rows: &mut [u32; ROWS])
    requires sorted { Sorted (plan_in pairs.now) sorting.now × (h < pairs.now.events) }
    requires carried_to { CarriedTo (plan_in pairs.now) sorting.now.queue h rows.old }
    ensures { CarriedTo (plan_in pairs.now) sorting.now.queue (h + 1) rows.new }
{
    let u = sorting.queue[h] as usize;
    let mut at = sorting.lists.first[u] as usize;
    while at > 0 {
        let i = at - 1;
        let v = pairs.to[i] as usize;
        carry(rows, Event(u), Event(v));
        at = sorting.lists.next[i] as usize;
    }
}

// Rows of what is before each event, from rows that mark no more than that.
pub fn close(pairs: &Pairs, sorting: &Sorting, rows: &mut [u32; ROWS])
    requires sorted { Sorted (plan_in pairs.now) sorting.now }
    requires within { Within (plan_in pairs.now) rows.old }
    ensures { Predecessors (plan_in pairs.now) rows.new }
{
    for h in 0..pairs.events {
        carry_pairs(pairs, sorting, h, rows);
    }
}

// Whether nothing lies between a and b, where `succ` marks what is after a row's event and `pred` what is before it.
pub fn is_skeleton(succ: &[u32; ROWS], pred: &[u32; ROWS], a: Event, b: Event) -> bool
    requires { (a.0 < most_events) × (b.0 < most_events) }
    ensures { result ≡ not (meeting succ.now a.0 pred.now b.0) }
{
    !marks::meets(succ, a.0, pred, b.0)
}
