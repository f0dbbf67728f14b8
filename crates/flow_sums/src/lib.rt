// What a flow row adds up to: what its pairs carry into each event and out of it, where they keep rule 4, and its shares.
#![tactic(auto)]

ghost use Rattle.std.specs.Prelude.{◌+◌, ◌<◌, ◌≤◌, true, not, ◌||◌, ◌≡◌, eqb, length, get_or, replicate, sum};
ghost use Rattle.ids.specs.Limits.{most_events, most_pairs};
ghost use Rattle.marks.specs.Marks.{meeting};
ghost use Rattle.plan.specs.Flow.{rule4};
ghost use Rattle.sheet.specs.Table.{pairs_of};
ghost use Rattle.sheet.specs.Items.{plan_of};
ghost use Rattle.sheet.specs.Faultless.{Faultless};
ghost use Rattle.order.specs.Rows.{OrderRows};
ghost use Rattle.calls.specs.FlowRow.{flow_of};
ghost use Rattle.flow_sums.specs.Sums.{most_number, most_sum, SumRaised, PairSums, shares_of};

use closure::is_skeleton;
use ids::{EVENTS, Event};
use order::Order;
use reader::Reader;

// What the pairs carry into each event and out of it.
#[derive(Drop)]
pub struct Carried {
    pub into: [u64; EVENTS],
    pub out: [u64; EVENTS],
}

impl Carried {
    // Nothing is carried.
    pub fn blank() -> Carried
        ensures { (result.into ≡ replicate most_events 0) × (result.out ≡ replicate most_events 0) }
    {
        Carried {
            into: [0u64; EVENTS],
            out: [0u64; EVENTS],
        }
    }
}

// Adds x to the sum at v.
// A function of its own, as `tokenflow::refund`: its clause says what the row has then.
fn raise(sums: &mut [u64], v: Event, x: u32)
    requires { (v.0 < length sums.old) × (get_or sums.old v.0 0 ≤ most_sum) }
    ensures { SumRaised sums.old sums.new v.0 x }
{
    let i = v.0;
    sums[i] += u64::from(x);
}

// Rule 4 at one pair: whether it is a skeleton pair or carries 0.
fn may_carry(order: &Order, a: Event, b: Event, x: u32) -> bool
    requires { (a.0 < most_events) × (b.0 < most_events) }
    ensures { result ≡ (not (meeting order.now.succ a.0 order.now.pred b.0) || eqb x 0) }
{
    x == 0 || is_skeleton(&order.succ, &order.pred, a, b)
}

// Rule 4. Where it holds, `carried` is what the pairs carry into each event and out of it.
#[tactic(auto, using(crate::proofs::Pairs::within))]
pub fn add_pairs(sheet: &Reader, order: &Order, row: &[u32], carried: &mut Carried) -> bool
    requires faultless { Faultless sheet.now.bytes.now }
    requires order_rows { OrderRows (plan_of sheet.now.bytes.now) order.now.succ order.now.pred }
    requires pairs_in_bounds { pairs_of sheet.now.bytes.now ≤ length row.now }
    requires blank { (carried.old.into ≡ replicate most_events 0) × (carried.old.out ≡ replicate most_events 0) }
    ensures value { result ≡ rule4 (plan_of sheet.now.bytes.now) (flow_of row.now) }
    ensures pair_sums { result ≡ true → PairSums (plan_of sheet.now.bytes.now) (flow_of row.now) (pairs_of sheet.now.bytes.now) carried.new.into carried.new.out }
{
    for i in 0..sheet.pairs() {
        let a = sheet.earlier(i);
        let b = sheet.later(i);
        let x = row[i];
        if !may_carry(order, a, b, x) {
            return false;
        }
        raise(&mut carried.out, a, x);
        raise(&mut carried.into, b, x);
    }
    true
}

fn total(numbers: &[u32]) -> u64
    requires { length numbers.now ≤ most_events }
    ensures { result ≡ sum numbers.now }
{
    numbers.iter().map(|&x| u64::from(x)).sum()
}

// What all the shares come to.
pub fn add_shares(row: &[u32], pairs: usize, events: usize) -> u64
    requires pairs_le_most_pairs { (pairs ≤ most_pairs) × (events ≤ most_events) }
    requires events_in_bounds { pairs + events ≤ length row.now }
    ensures { result ≡ shares_of row.now pairs events }
{
    total(&row[pairs..pairs + events])
}
