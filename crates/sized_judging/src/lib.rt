// A place judged with working rows as long as the plan needs them.
#![tactic(auto)]

ghost use Rattle.std.specs.Prelude.{◌*◌, ◌<◌, ◌≤◌};
ghost use Rattle.handing.specs.Known.{Judgeable, JudgedBy};
ghost use Rattle.ids.specs.Limits.{most_events};
ghost use Rattle.sheet.specs.Table.{events_of};

use handing::judge_in;
use ids::{MIDDLE, MIDDLE_SQUARE, Place, SMALL, SMALL_SQUARE, SQUARE};
use order::Order;
use reader::Reader;

// Judges with N amounts. Each size has a frame of its own, which no call of another size takes: the hint keeps it so where the compiler makes a loop of the
// call of itself below.
#[inline(never)]
fn judge_with<const N: usize>(
    sheet: &Reader,
    p: Place,
    order: &Order,
    flow: &mut [u32],
    marks: &mut [u8],
) -> i32
    requires judgeable { Judgeable sheet.now.bytes.now p order.now.succ order.now.pred flow.old marks.old }
    requires room { events_of sheet.now.bytes.now * most_events ≤ N }
    requires size { N ≤ most_events * most_events }
    ensures { JudgedBy sheet.now.bytes.now p flow.old flow.new marks.old marks.new result }
{
    let mut amount = [0u32; N];
    judge_in(sheet, p, order, &mut amount, flow, marks)
}

// Judges with the amounts of a plan of at most `most` events, and with four times as many while the plan has more. As in
// `sized_counts::count_within` the call of itself keeps each row in a frame of its own.
// The sizes stand here as in `sized_counts`: one ladder for both would take what is done at a size as a closure, and that call is what keeps the frames apart.
pub fn judge_within(
    sheet: &Reader,
    p: Place,
    order: &Order,
    flow: &mut [u32],
    marks: &mut [u8],
    most: usize,
) -> i32
    requires judgeable { Judgeable sheet.now.bytes.now p order.now.succ order.now.pred flow.old marks.old }
    requires some { 0 < most }
    ensures { JudgedBy sheet.now.bytes.now p flow.old flow.new marks.old marks.new result }
{
    if sheet.events() > most {
        return judge_within(sheet, p, order, flow, marks, 4 * most);
    }
    if most <= SMALL {
        return judge_with::<SMALL_SQUARE>(sheet, p, order, flow, marks);
    }
    if most <= MIDDLE {
        return judge_with::<MIDDLE_SQUARE>(sheet, p, order, flow, marks);
    }
    judge_with::<SQUARE>(sheet, p, order, flow, marks)
}
