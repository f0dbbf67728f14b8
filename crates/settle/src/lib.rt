// Settles a place: searches and moves tokens by turns, until what is lacking is little enough or no giver that a taker could draw on has
// tokens free.
#![tactic(auto)]

ghost use Rattle.std.specs.Prelude.{◌<◌, ◌≤◌, ◌≡◌, leb, length, replicate, sum};
ghost use Rattle.finite.specs.Sum.{sum_of};
ghost use Rattle.ids.specs.Limits.{most_events};
ghost use Rattle.tokenflow.specs.Flowing.{Flowing};
ghost use Rattle.drawing.specs.Moves.{Moved, Order};
ghost use Rattle.exchange.specs.Walk.{trail_rows, TellsGiver};
ghost use Rattle.settle.specs.Finished.{Advanced, Ended, FreeSaid, HasFree, Rounded};
ghost use Rattle.tokenflow.specs.Lent.{rows_in};

use exchange::walk;
use ids::{EVENTS, Event, ROWS, WORDS};
use push::push;
use search::{Trail, search};
use tokenflow::Flow;

// Whether u was met and has tokens free.
fn has_free(givers: &[u32; WORDS], flow: &Flow, u: Event) -> bool
    requires { u.0 < most_events }
    ensures { FreeSaid givers.now flow.now.free.now u.0 result }
{
    marks::is_marked(givers, 0, u.0) && flow.free(u) > 0
}

// A giver that was met and has tokens free.
fn find_free(givers: &[u32; WORDS], flow: &Flow, n: usize) -> Option<Event>
    requires { n ≤ most_events }
    ensures { TellsGiver (HasFree givers.now flow.now.free.now n) result }
{
    (0..n).map(Event).find(|u| has_free(givers, flow, *u))
}

// Walks from a giver that was met and has tokens free, and then pushes what is free down the levels of the search. Returns whether there
// was one.
fn advance(
    pred: &[u32; ROWS],
    givers: &[u32; WORDS],
    trail: &Trail,
    flow: &mut Flow,
    tail: usize,
    n: usize,
) -> bool
    requires holds { Flowing n pred.now (rows_in flow.old) }
    requires order { Order n pred.now }
    requires tail_le_most_events { tail ≤ most_events }
    ensures moves { Moved n pred.now (rows_in flow.old) (rows_in flow.new) }
    ensures advanced { Advanced n pred.now givers.now (trail_rows trail.now.queue trail.now.origin trail.now.via) (rows_in flow.old) (rows_in flow.new) result }
{
    let Some(u) = find_free(givers, flow, n) else {
        return false;
    };
    walk(pred, trail, flow, u, n);
    push(pred, trail, flow, tail, n);
    true
}

// Forgets by way of which place each giver was met, so that a push after the next search looks at those of that search only.
fn forget(trail: &mut Trail)
    ensures via { trail.new.via ≡ replicate most_events most_events }
    ensures queue_kept { trail.new.queue ≡ trail.old.queue }
    ensures origin_kept { trail.new.origin ≡ trail.old.origin }
{
    trail.via = [EVENTS; EVENTS];
}

// One search, and the moves that it leads to. Returns whether less is lacking now.
fn round(
    pred: &[u32; ROWS],
    flow: &mut Flow,
    takers: &mut [u32; WORDS],
    givers: &mut [u32; WORDS],
    trail: &mut Trail,
    n: usize,
) -> bool
    requires holds { Flowing n pred.now (rows_in flow.old) }
    requires order { Order n pred.now }
    ensures moves { Moved n pred.now (rows_in flow.old) (rows_in flow.new) }
    ensures rounded { Rounded n pred.now (rows_in flow.old) (rows_in flow.new) takers.new givers.new result }
{
    let tail = search(pred, flow.fed, flow.share, n, takers, givers, trail);
    advance(pred, givers, trail, flow, tail, n)
}

// The sum of at most 256 numbers. It stands apart since how long a slice is bounds its sum.
fn total(numbers: &[u32]) -> u64
    requires { length numbers.now ≤ most_events }
    ensures { result ≡ sum numbers.now }
{
    numbers.iter().map(|x| u64::from(*x)).sum()
}

// Whether the takers lack no more than is enough.
fn is_covered(share: &[u32; EVENTS], n: usize, enough: u32) -> bool
    requires { n ≤ most_events }
    ensures { result ≡ leb (sum_of share.now n) enough }
{
    total(&share[..n]) <= u64::from(enough)
}

// Rounds until what is lacking is within `enough` or the search is the last. Each round but the last leaves less lacking. Where a search
// starts it writes no origin; 256 stays there, which names no event, since later searches start at no more takers.
// The 256s are written where they stand: numbers other than 0 in the literal are made elsewhere in the frame first, and copied.
fn settle_by_rounds(
    pred: &[u32; ROWS],
    flow: &mut Flow,
    givers: &mut [u32; WORDS],
    enough: u32,
    n: usize,
)
    requires holds { Flowing n pred.now (rows_in flow.old) }
    requires order { Order n pred.now }
    ensures moves { Moved n pred.now (rows_in flow.old) (rows_in flow.new) }
    ensures ended { Ended n pred.now enough (rows_in flow.new) givers.new }
{
    let mut takers = [0u32; WORDS];
    let mut trail = Trail {
        queue: [0; EVENTS],
        origin: [0; EVENTS],
        via: [0; EVENTS],
    };
    trail.origin = [EVENTS; EVENTS];
    while !is_covered(flow.share, n, enough) {
        forget(&mut trail);
        let less = round(pred, flow, &mut takers, givers, &mut trail, n);
        if !less {
            return;
        }
    }
}

// Settles a place: the opening count is enough where only what is missing is wanted, and 0 where the least opening count is. Where what is
// lacking is within `enough` already, no rows for a search are made.
pub fn settle(pred: &[u32; ROWS], flow: &mut Flow, givers: &mut [u32; WORDS], enough: u32, n: usize)
    requires holds { Flowing n pred.now (rows_in flow.old) }
    requires order { Order n pred.now }
    ensures moves { Moved n pred.now (rows_in flow.old) (rows_in flow.new) }
    ensures ended { Ended n pred.now enough (rows_in flow.new) givers.new }
{
    if !is_covered(flow.share, n, enough) {
        settle_by_rounds(pred, flow, givers, enough, n);
    }
}
