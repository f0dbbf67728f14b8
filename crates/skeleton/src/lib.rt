// The skeleton pairs of a sheet in rows: a mark for each, and an index by which its number is found.
// Numbers are cast to fewer bits, which loses nothing, as the check proves: `TryFrom` would need an answer for what can't come.
#![tactic(auto)]

ghost use Rattle.std.specs.Prelude.{◌≤◌, ◌<◌, ◌≡◌, get_or, length};
ghost use Rattle.ids.specs.Limits.{most_events, most_pairs};
ghost use Rattle.sheet.specs.Table.{pairs_of};
ghost use Rattle.sheet.specs.Items.{plan_of};
ghost use Rattle.sheet.specs.Faultless.{Faultless};
ghost use Rattle.order.specs.Rows.{Blank, OrderRows};
ghost use Rattle.skeleton.specs.Linked.{Linked, MayFind, FoundAt};
ghost use Rattle.skeleton.specs.Lists.{index_size, Unlisted, PairListed};

use closure::is_skeleton;
use ids::{EVENTS, Event, PAIRS, ROWS};
use marks::mark;
use order::Order;
use reader::Reader;

// The index: for each event the number after that of its last skeleton pair, for each pair that of the one listed before it (0: none), and then
// the event where it starts.
// One row of fixed size for three lists: nothing is on the heap.
pub const INDEX: usize = EVENTS + PAIRS + PAIRS;

// The skeleton pairs of a plan: a mark for each, (a, b) in row b, and the index.
#[derive(Drop)]
pub struct Skeleton {
    pub skel: [u32; ROWS],
    pub index: [u16; INDEX],
}

impl Skeleton {
    // No pair is marked or listed.
    pub fn blank() -> Skeleton
        ensures { Blank result.skel × Unlisted result.index }
    {
        Skeleton {
            skel: [0u32; ROWS],
            index: [0u16; INDEX],
        }
    }
}

// Lists pair i, from a to b, as the last of b.
// Lists by the later event, with the earlier one beside; those of `sorting` are by the earlier event and count.
fn list_pair(index: &mut [u16], a: Event, b: Event, i: usize)
    requires { (a.0 < most_events) × (b.0 < most_events) × (i < most_pairs) × (index_size ≤ length index.old) }
    ensures { PairListed index.old index.new a.0 b.0 i }
{
    let to = b.0;
    index[EVENTS + i] = index[to];
    index[EVENTS + PAIRS + i] = a.0 as u16;
    index[to] = i as u16 + 1;
}

// Marks each skeleton pair (a, b) of the sheet in row b, and lists it in the index.
#[tactic(auto, using(crate::proofs::Links::within))]
pub fn index_pairs(sheet: &Reader, order: &Order, skeleton: &mut Skeleton)
    requires faultless { Faultless sheet.now.bytes.now }
    requires order_rows { OrderRows (plan_of sheet.now.bytes.now) order.now.succ order.now.pred }
    requires blank { Blank skeleton.old.skel × Unlisted skeleton.old.index }
    ensures { Linked (plan_of sheet.now.bytes.now) (pairs_of sheet.now.bytes.now) skeleton.new.skel skeleton.new.index }
{
    for i in 0..sheet.pairs() {
        let a = sheet.earlier(i);
        let b = sheet.later(i);
        if is_skeleton(&order.succ, &order.pred, a, b) {
            mark(&mut skeleton.skel, b.0, a.0);
            list_pair(&mut skeleton.index, a, b, i);
        }
    }
}

// An entry of the index.
fn entry(index: &[u16; INDEX], at: usize) -> usize
    requires { at < index_size }
    ensures { result ≡ get_or index.now at 0 }
{
    usize::from(index[at])
}

// The number of the skeleton pair from a to b, found in the list of b.
#[tactic(auto, using(crate::proofs::Seeking::seek_few))]
pub fn pair_number(index: &[u16; INDEX], a: Event, b: Event) -> usize
    requires a_lt_most_events { (a.0 < most_events) × (b.0 < most_events) }
    requires may_find { MayFind index.now a.0 b.0 }
    ensures { FoundAt index.now a.0 b.0 result }
{
    let mut i = entry(index, b.0) - 1;
    // A list is walked by its links: an iterator would be no plainer.
    while entry(index, EVENTS + PAIRS + i) != a.0 {
        i = entry(index, EVENTS + i) - 1;
    }
    i
}
