// The flow check: whether a lent flow row is a valid compact tokenflow for one place of a sheet. The row is only read.
#![tactic(auto)]

ghost use Rattle.std.specs.Prelude.{◌+◌, ◌<◌, ◌≤◌, ◌≡◌, length};
ghost use Rattle.plan.specs.Flow.{valid};
ghost use Rattle.sheet.specs.Table.{places_of, events_of, pairs_of};
ghost use Rattle.sheet.specs.Items.{net_of, plan_of};
ghost use Rattle.sheet.specs.Faultless.{Faultless};
ghost use Rattle.order.specs.Rows.{OrderRows};
ghost use Rattle.calls.specs.FlowRow.{flow_of, flow_length};
ghost use Rattle.flow_sums.specs.Sums.{PairSums};
ghost use Rattle.flowcheck.specs.Checked.{says, check_says};
ghost use Rattle.flowcheck.specs.Kept.{kept_at, balanced};

use calls::{find_place, find_room};
use fault::examine;
use flow_sums::{Carried, add_pairs, add_shares};
use ids::{Event, Place};
use order::{Order, Wanted};
use reader::Reader;
use rules::{covers, keeps};
use sheet::Fault;

mod rules; // rules.rt: the rules at one event and for the sum of the shares

// Rules 1 and 2 at event v.
fn event_keeps(sheet: &Reader, p: Place, row: &[u32], carried: &Carried, v: Event) -> bool
    requires faultless { Faultless sheet.now.bytes.now }
    requires known { (p.0 < places_of sheet.now.bytes.now) × (v.0 < events_of sheet.now.bytes.now) }
    requires room { flow_length sheet.now.bytes.now ≤ length row.now }
    requires pair_sums { PairSums (plan_of sheet.now.bytes.now) (flow_of row.now) (pairs_of sheet.now.bytes.now) carried.now.into carried.now.out }
    ensures { result ≡ kept_at (net_of sheet.now.bytes.now) (plan_of sheet.now.bytes.now) p.0 (flow_of row.now) v.0 }
{
    let t = sheet.label(v);
    let arrived = u64::from(row[sheet.pairs() + v.0]) + carried.into[v.0];
    keeps(
        sheet.takes(t, p),
        sheet.gives(t, p),
        arrived,
        carried.out[v.0],
    )
}

// Rules 1 and 2.
fn is_balanced(sheet: &Reader, p: Place, row: &[u32], carried: &Carried) -> bool
    requires faultless { Faultless sheet.now.bytes.now }
    requires known { p.0 < places_of sheet.now.bytes.now }
    requires room { flow_length sheet.now.bytes.now ≤ length row.now }
    requires pair_sums { PairSums (plan_of sheet.now.bytes.now) (flow_of row.now) (pairs_of sheet.now.bytes.now) carried.now.into carried.now.out }
    ensures { result ≡ balanced (net_of sheet.now.bytes.now) (plan_of sheet.now.bytes.now) p.0 (flow_of row.now) }
{
    // With `all` on the range the proof didn't close: std has no lemma on `all` over a range.
    for v in 0..sheet.events() {
        if !event_keeps(sheet, p, row, carried, Event(v)) {
            return false;
        }
    }
    true
}

// Whether all four rules hold. The order of the plan is handed in, so that it is worked out once.
fn is_valid(sheet: &Reader, p: Place, row: &[u32], order: &Order) -> bool
    requires faultless { Faultless sheet.now.bytes.now }
    requires known { p.0 < places_of sheet.now.bytes.now }
    requires room { flow_length sheet.now.bytes.now ≤ length row.now }
    requires order_rows { OrderRows (plan_of sheet.now.bytes.now) order.now.succ order.now.pred }
    ensures { result ≡ valid (net_of sheet.now.bytes.now) (plan_of sheet.now.bytes.now) p.0 (flow_of row.now) }
{
    let mut carried = Carried::blank();
    if !add_pairs(sheet, order, row, &mut carried) {
        return false;
    }
    let total = add_shares(row, sheet.pairs(), sheet.events());
    if !covers(sheet.opening(p), total) {
        return false;
    }
    is_balanced(sheet, p, row, &carried)
}

// The flow check: true exactly if the row is valid. Any numbers may stand in it.
pub fn check_flow(s: &[u8], p: Place, row: &[u32]) -> Result<bool, Fault>
    ensures { says result ≡ check_says s.now p.0 row.now }
{
    let mut order = Order::blank();
    let sheet = examine(s, Wanted::Both, &mut order)?;
    find_place(&sheet, p)?;
    find_room(row.len(), sheet.pairs() + sheet.events())?;
    Ok(is_valid(&sheet, p, row, &order))
}
