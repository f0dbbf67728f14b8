// A search, breadth first, over takers and givers of tokens: from each taker with a share of the opening count to the givers before it,
// and from each giver to the takers that it feeds. Sets are rows of marks. The definitions are in specs/.
#![tactic(auto)]

ghost use Rattle.std.specs.Prelude.{◌≡◌, ◌≤◌, ◌<◌};
ghost use Rattle.ids.specs.Limits.{most_events};
ghost use Rattle.search.specs.Row.{Empty, AllIn};
ghost use Rattle.search.specs.Exhausted.{Narrow};
ghost use Rattle.search.specs.Trail.{◌!◌, givers_of, takers_of};
ghost use Rattle.search.specs.Searched.{Listed, Searched};
ghost use Rattle.search.specs.Steps.{Joined, Seeded, Following, Visiting};

use ids::{EVENTS, Event, ROWS, WORDS};

// How a search reached each event: the takers listed in the order in which they were reached, the giver that each place of this queue
// came from, and the place of the queue by way of which each giver was met. The heap is not used, so how long the queue is stands beside it.
// Plain: contracts read its rows one by one. The marks of takers and givers stay beside it, since the caller keeps those of givers alone.
#[derive(Drop)]
pub struct Trail {
    pub queue: [usize; EVENTS],
    pub origin: [usize; EVENTS],
    pub via: [usize; EVENTS],
}

// Marks a taker, and lists it at the end of the queue.
#[tactic(auto, using(finite::specs::Queue::stored))]
fn list(takers: &mut [u32; WORDS], queue: &mut [usize; EVENTS], end: usize, w: Event)
    requires { (end < most_events) × (w.0 < most_events) }
    ensures { Joined takers.old takers.new w.0 queue.old queue.new end w.0 }
{
    marks::mark(takers, 0, w.0);
    queue[end] = w.0;
}

// Marks a giver, met by way of the place `head` of the queue. Apart from `list`, since one function for both would say less by its name.
#[tactic(auto, using(finite::specs::Queue::stored))]
fn meet(givers: &mut [u32; WORDS], via: &mut [usize; EVENTS], u: Event, head: usize)
    requires { u.0 < most_events }
    ensures { Joined givers.old givers.new u.0 via.old via.new u.0 head }
{
    marks::mark(givers, 0, u.0);
    via[u.0] = head;
}

// Lists each taker with a share. Returns how many there are.
fn seed(
    share: &[u32; EVENTS],
    n: usize,
    takers: &mut [u32; WORDS],
    queue: &mut [usize; EVENTS],
) -> usize
    requires n_le_most_events { n ≤ most_events }
    requires empty { Empty takers.old }
    ensures { Seeded share.now n takers.new queue.new result }
{
    let mut tail = 0;
    for w in 0..n {
        if share[w] > 0 {
            list(takers, queue, tail, Event(w));
            tail += 1;
        }
    }
    tail
}

// Lists each taker that the giver `u` feeds and that is not yet listed. Returns how many are listed now.
fn follow(
    fed: &[u32; ROWS],
    u: Event,
    takers: &mut [u32; WORDS],
    trail: &mut Trail,
    tail: usize,
) -> usize
    requires u_lt_most_events { u.0 < most_events }
    requires listed { Listed takers.old trail.old.queue tail }
    ensures following { Following fed.now u.0 (takers_of takers.old trail.old.queue trail.old.origin tail)
        (takers_of takers.new trail.new.queue trail.new.origin result) }
    ensures via_kept { trail.new.via ≡ trail.old.via }
    ensures all_in { AllIn fed.now u.0 takers.new }
{
    let mut end = tail;
    while let Some(x) = last_mark::last_only(fed, u.0, takers, 0) {
        list(takers, &mut trail.queue, end, Event(x));
        trail.origin[end] = u.0;
        end += 1;
    }
    end
}

// Meets each giver before the taker at `head` that was not yet met, and follows it. Returns how many takers are listed now.
fn visit(
    pred: &[u32; ROWS],
    fed: &[u32; ROWS],
    head: usize,
    takers: &mut [u32; WORDS],
    givers: &mut [u32; WORDS],
    trail: &mut Trail,
    tail: usize,
) -> usize
    requires listed { Listed takers.old trail.old.queue tail }
    requires head_lt_tail { head < tail }
    ensures visiting { Visiting pred.now fed.now (takers_of takers.old trail.old.queue trail.old.origin tail) (givers_of givers.old trail.old.via)
        (takers_of takers.new trail.new.queue trail.new.origin result) (givers_of givers.new trail.new.via) }
    ensures all_in { AllIn pred.now (trail.old.queue ! head) givers.new }
{
    let w = Event(trail.queue[head]);
    let mut end = tail;
    while let Some(x) = last_mark::last_only(pred, w.0, givers, 0) {
        let u = Event(x);
        meet(givers, &mut trail.via, u, head);
        end = follow(fed, u, takers, trail, end);
    }
    end
}

// The takers and givers that a search reaches, and how it reached each. Returns how many takers were reached.
pub fn search(
    pred: &[u32; ROWS],
    fed: &[u32; ROWS],
    share: &[u32; EVENTS],
    n: usize,
    takers: &mut [u32; WORDS],
    givers: &mut [u32; WORDS],
    trail: &mut Trail,
) -> usize
    requires n_le_most_events { n ≤ most_events }
    requires narrow { Narrow pred.now fed.now n }
    ensures { Searched pred.now fed.now share.now n (takers_of takers.new trail.new.queue trail.new.origin result)
        (givers_of givers.new trail.new.via) }
{
    *takers = [0u32; WORDS];
    *givers = [0u32; WORDS];
    let mut tail = seed(share, n, takers, &mut trail.queue);
    let mut head = 0;
    // The queue grows while it is read, so no range has its places.
    while head < tail {
        tail = visit(pred, fed, head, takers, givers, trail, tail);
        head += 1;
    }
    tail
}
