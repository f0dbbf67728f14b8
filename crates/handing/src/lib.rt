// A place of a sheet without fault judged with the amounts that are lent, and what it hands over: a valid flow, or zeros and the done set.
#![tactic(auto)]

ghost use Rattle.std.specs.Prelude.{◌*◌, ◌<◌, ◌≤◌, T, length};
ghost use Rattle.calls.specs.FlowRow.{flow_length};
ghost use Rattle.fold.specs.Written.{SharesFrom};
ghost use Rattle.ids.specs.Limits.{most_events};
ghost use Rattle.order.specs.Rows.{OrderRows};
ghost use Rattle.sheet.specs.Faultless.{Faultless};
ghost use Rattle.sheet.specs.Items.{plan_of};
ghost use Rattle.sheet.specs.Table.{places_of, events_of, pairs_of};
ghost use Rattle.handing.specs.Handed.{valid_at, ShownBy, Written};
ghost use Rattle.handing.specs.Known.{Judgeable, JudgedBy};

use done_set::write_marks;
use fold::write_flow;
use ids::{EVENTS, Place, ROWS, WORDS};
use order::Order;
use place::place_counts;
use reader::Reader;
use skeleton::{Skeleton, index_pairs};
use tokenflow::Flow;

// Writes the tokenflow of a place that lacks nothing as a flow row, by way of the skeleton pairs.
fn hand_over(sheet: &Reader, p: Place, order: &Order, flow: &Flow, row: &mut [u32])
    requires faultless { Faultless sheet.now.bytes.now }
    requires known { p.0 < places_of sheet.now.bytes.now }
    requires order_rows { OrderRows (plan_of sheet.now.bytes.now) order.now.succ order.now.pred }
    requires shown_by { ShownBy sheet.now.bytes.now p order.now.pred flow.now.amount.now flow.now.fed.now flow.now.share.now 0 }
    requires room { flow_length sheet.now.bytes.now ≤ length row.old }
    ensures t { T (valid_at sheet.now.bytes.now p.0 row.new) }
    ensures shares_from { SharesFrom (pairs_of sheet.now.bytes.now) row.old row.new flow.now.share.now (events_of sheet.now.bytes.now) }
{
    let mut skeleton = Skeleton::blank();
    index_pairs(sheet, order, &mut skeleton);
    let pairs = sheet.pairs();
    let n = sheet.events();
    write_flow(&order.succ, &skeleton, flow, row, pairs, n);
}

// Writes the flow row of a judged place: a valid flow if none of its tokens are missing, else zeros.
pub fn hand_flow(sheet: &Reader, p: Place, order: &Order, flow: &Flow, m: u32, row: &mut [u32])
    requires faultless { Faultless sheet.now.bytes.now }
    requires known { p.0 < places_of sheet.now.bytes.now }
    requires order_rows { OrderRows (plan_of sheet.now.bytes.now) order.now.succ order.now.pred }
    requires shown_by { ShownBy sheet.now.bytes.now p order.now.pred flow.now.amount.now flow.now.fed.now flow.now.share.now m }
    requires room { flow_length sheet.now.bytes.now ≤ length row.old }
    ensures { Written sheet.now.bytes.now p.0 row.old row.new }
{
    if m == 0 {
        hand_over(sheet, p, order, flow, row);
        return;
    }
    let count = sheet.pairs() + sheet.events();
    row[..count].fill(0);
}

// The spare count of a place of a sheet without fault, with the amounts lent and the other working rows. The order of the plan is handed in,
// so that it is worked out once.
pub fn judge_in(
    sheet: &Reader,
    p: Place,
    order: &Order,
    amount: &mut [u32],
    flow: &mut [u32],
    marks: &mut [u8],
) -> i32
    requires judgeable { Judgeable sheet.now.bytes.now p order.now.succ order.now.pred flow.old marks.old }
    requires amounts { events_of sheet.now.bytes.now * most_events ≤ length amount.old }
    ensures { JudgedBy sheet.now.bytes.now p flow.old flow.new marks.old marks.new result }
{
    let mut fed = [0u32; ROWS];
    let mut free = [0u32; EVENTS];
    let mut share = [0u32; EVENTS];
    let mut givers = [0u32; WORDS];
    let mut settled = Flow {
        amount,
        fed: &mut fed,
        free: &mut free,
        share: &mut share,
    };
    let counts = place_counts(sheet, p, &order.pred, &mut settled, &mut givers);
    let m = counts.missing;
    hand_flow(sheet, p, order, &settled, m, flow);
    write_marks(&givers, m, marks, sheet.events());
    counts.spare
}
