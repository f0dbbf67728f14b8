// The pairs of a plan, gone over event by event, an event after all that have a pair to it. If the pairs have a cycle, events are left out, else none.
// The pairs say which plan it is, also to a function that reads less of them.
// Each loop over a range needs its number in two rows, or as an event's number; a list is walked by its links. Iterators would be no plainer.
// Numbers are cast to fewer bits, which loses nothing, as the check proves: `TryFrom` would need an answer for what can't come.
// Bytes and numbers of pairs are cast to `usize`: with `usize::from` the proofs of these loops didn't close, since an invariant then speaks of a call's result.
#![tactic(auto)]

mod pairs;

ghost use Rattle.std.specs.Prelude.{◌+◌, ◌<◌, ◌≤◌, ◌≡◌, get_or};
ghost use Rattle.finite.specs.Queue.{Queued};
ghost use Rattle.ids.specs.Limits.{most_events, most_pairs};
ghost use Rattle.sorting.specs.InRows.{plan_in};
ghost use Rattle.sorting.specs.Rows.{has_cycle};
ghost use Rattle.sorting.specs.Sorted.{ready, Round, NoLists, SortedTo};
ghost use Rattle.sorting.specs.Steps.{PairListed, Lowered};
ghost use Rattle.sorting.specs.Waiting.{Lists, Listed};

use ids::{EVENTS, Event, PAIRS};
pub use pairs::Pairs;

// The pairs in lists by their earlier events: an event has the number after that of its last pair, a pair the number after that of its event's last pair
// before it, and 0 says that there is none.
// Rows of fixed size, and how much of the queue is filled is told apart: nothing is on the heap.
#[derive(Drop)]
pub struct PairLists {
    pub first: [u16; EVENTS],
    pub next: [u16; PAIRS],
}

// The pairs in lists, and the events in the order in which they are gone over.
#[derive(Drop)]
pub struct Sorting {
    pub lists: PairLists,
    pub queue: [u8; EVENTS],
}

impl Sorting {
    // No pair is listed.
    pub fn blank() -> Sorting
        ensures { NoLists result.lists }
    {
        Sorting {
            lists: PairLists {
                first: [0; EVENTS],
                next: [0; PAIRS],
            },
            queue: [0; EVENTS],
        }
    }
}

// Lists pair i, of a and b, as the last of a, and counts it at b.
fn list_pair(i: usize, a: Event, b: Event, lists: &mut PairLists, left: &mut [u16; EVENTS])
    requires i_lt_most_pairs { (i < most_pairs) × (a.0 < most_events) × (b.0 < most_events) }
    requires b_bound { get_or left.old b.0 0 ≤ most_pairs }
    ensures { PairListed lists.old left.old lists.new left.new i a.0 b.0 }
{
    let from = a.0;
    let to = b.0;
    lists.next[i] = lists.first[from];
    lists.first[from] = i as u16 + 1;
    left[to] += 1;
}

// Lists the pairs, and counts them at the events where they end.
fn list_pairs(pairs: &Pairs, lists: &mut PairLists, left: &mut [u16; EVENTS])
    requires { Listed (plan_in pairs.now) lists.old left.old 0 }
    ensures { Listed (plan_in pairs.now) lists.new left.new pairs.now.count }
{
    for i in 0..pairs.count {
        let a = Event(pairs.from[i] as usize);
        let b = Event(pairs.to[i] as usize);
        list_pair(i, a, b, lists, left);
    }
}

// Puts the events that wait for nothing into the queue, and returns how many they are.
fn seed(events: usize, left: &[u16; EVENTS], queue: &mut [u8; EVENTS]) -> usize
    requires { events ≤ most_events }
    ensures { Queued events (ready events left.now) queue.new result }
{
    let mut end = 0;
    for v in 0..events {
        if left[v] == 0 {
            queue[end] = v as u8;
            end += 1;
        }
    }
    end
}

// The event v waits for one pair less; if that was the last, it joins the queue. Returns how many are in the queue.
fn lower(v: Event, left: &mut [u16; EVENTS], queue: &mut [u8; EVENTS], end: usize) -> usize
    requires { (v.0 < most_events) × (1 ≤ get_or left.old v.0 0) × (end < most_events) }
    ensures { Lowered left.old queue.old left.new queue.new v.0 end result }
{
    let i = v.0;
    left[i] -= 1;
    if left[i] == 0 {
        queue[end] = i as u8;
        return end + 1;
    }
    end
}

// Goes over the pairs of the event at h in the queue. Returns how many are in the queue then.
fn follow(
    pairs: &Pairs,
    lists: &PairLists,
    left: &mut [u16; EVENTS],
    queue: &mut [u8; EVENTS],
    h: usize,
    tail: usize,
) -> usize
    requires lists { Lists (plan_in pairs.now) pairs.now.count lists.now }
    requires round { Round (plan_in pairs.now) left.old queue.old h tail × (h < tail) }
    ensures { Round (plan_in pairs.now) left.new queue.new (h + 1) result }
{
    let mut end = tail;
    let mut at = lists.first[queue[h] as usize] as usize;
    while at > 0 {
        let i = at - 1;
        let v = Event(pairs.to[i] as usize);
        end = lower(v, left, queue, end);
        at = lists.next[i] as usize;
    }
    end
}

// Goes over the pairs of all events of the queue. Returns how many events have been in it.
fn sort(
    pairs: &Pairs,
    lists: &PairLists,
    left: &mut [u16; EVENTS],
    queue: &mut [u8; EVENTS],
    tail: usize,
) -> usize
    requires lists { Lists (plan_in pairs.now) pairs.now.count lists.now }
    requires round { Round (plan_in pairs.now) left.old queue.old 0 tail }
    ensures { Round (plan_in pairs.now) left.new queue.new result result }
{
    let mut end = tail;
    let mut h = 0;
    // The queue grows while it is read, so no range has its places.
    while h < end {
        end = follow(pairs, lists, left, queue, h, end);
        h += 1;
    }
    end
}

// Lists the pairs by their earlier events, and puts events into the queue, each after all that have a pair to it: all of them, unless the pairs have a
// cycle. Returns how many they are.
pub fn sort_events(pairs: &Pairs, sorting: &mut Sorting) -> usize
    requires { NoLists sorting.old.lists }
    ensures { SortedTo (plan_in pairs.now) sorting.new result }
{
    let mut left = [0u16; EVENTS];
    list_pairs(pairs, &mut sorting.lists, &mut left);
    let tail = seed(pairs.events, &left, &mut sorting.queue);
    sort(pairs, &sorting.lists, &mut left, &mut sorting.queue, tail)
}

// Whether the pairs have a cycle.
pub fn has_cycle(pairs: &Pairs) -> bool
    ensures { result ≡ has_cycle (plan_in pairs.now) }
{
    let mut sorting = Sorting::blank();
    sort_events(pairs, &mut sorting) < pairs.events
}
