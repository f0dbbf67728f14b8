// The counts of all places with working rows as long as the plan needs them, for the plan judgement and the listing.
#![tactic(auto)]

ghost use Rattle.std.specs.Prelude.{◌*◌, ◌<◌, ◌≤◌, length};
ghost use Rattle.ids.specs.Limits.{most_events};
ghost use Rattle.place_counts.specs.Counting.{Countable, Counted};
ghost use Rattle.sheet.specs.Table.{events_of};

use ids::{EVENTS, MIDDLE, MIDDLE_SQUARE, ROWS, SMALL, SMALL_SQUARE, SQUARE, WORDS};
use place_counts::count_places;
use ranks::event_order;
use reader::Reader;
use tokenflow::Flow;

// Of a sheet with so few events, zeroing the amounts of a small plan would be a good part of the time.
const FEW: usize = 4;

const FEW_SQUARE: usize = FEW * EVENTS;

// Counts at each place with the amounts lent, and the other working rows.
fn count_in(
    sheet: &Reader,
    least: bool,
    pred: &[u32; ROWS],
    amount: &mut [u32],
    row: &mut [u32],
) -> Option<[u32; WORDS]>
    requires countable { Countable sheet.now.bytes.now pred.now row.old }
    requires room { events_of sheet.now.bytes.now * most_events ≤ length amount.old }
    ensures { Counted sheet.now.bytes.now least row.old row.new result }
{
    let mut ranked = [0usize; EVENTS];
    event_order(pred, sheet.events(), &mut ranked);
    let mut fed = [0u32; ROWS];
    let mut free = [0u32; EVENTS];
    let mut share = [0u32; EVENTS];
    let mut flow = Flow {
        amount,
        fed: &mut fed,
        free: &mut free,
        share: &mut share,
    };
    count_places(sheet, least, pred, &ranked, &mut flow, row)
}

// Counts with N amounts. Each size has a frame of its own, which no call of another size takes.
fn count_with<const N: usize>(
    sheet: &Reader,
    least: bool,
    pred: &[u32; ROWS],
    row: &mut [u32],
) -> Option<[u32; WORDS]>
    requires countable { Countable sheet.now.bytes.now pred.now row.old }
    requires room { events_of sheet.now.bytes.now * most_events ≤ N }
    requires size { N ≤ most_events * most_events }
    ensures { Counted sheet.now.bytes.now least row.old row.new result }
{
    let mut amount = [0u32; N];
    count_in(sheet, least, pred, &mut amount, row)
}

// Counts with the amounts of a plan of at most `most` events, and with four times as many while the plan has more. It calls itself, and what
// does so gets no large row of another function into its own frame from the compiler: a small plan takes little of the stack.
fn count_within(
    sheet: &Reader,
    least: bool,
    pred: &[u32; ROWS],
    row: &mut [u32],
    most: usize,
) -> Option<[u32; WORDS]>
    requires countable { Countable sheet.now.bytes.now pred.now row.old }
    requires most_nonzero { (0 < most) × (events_of sheet.now.bytes.now ≤ most_events) }
    ensures { Counted sheet.now.bytes.now least row.old row.new result }
{
    if sheet.events() > most {
        return count_within(sheet, least, pred, row, 4 * most);
    }
    if most <= FEW {
        return count_with::<FEW_SQUARE>(sheet, least, pred, row);
    }
    if most <= SMALL {
        return count_with::<SMALL_SQUARE>(sheet, least, pred, row);
    }
    if most <= MIDDLE {
        return count_with::<MIDDLE_SQUARE>(sheet, least, pred, row);
    }
    count_with::<SQUARE>(sheet, least, pred, row)
}

// Counts at each place of a sheet without fault, with working rows as the plan needs them: the least opening counts, or only what is missing,
// which is settled sooner. Returns the marks of the done set of the first short place.
pub fn count_all(
    sheet: &Reader,
    least: bool,
    pred: &[u32; ROWS],
    row: &mut [u32],
) -> Option<[u32; WORDS]>
    requires { Countable sheet.now.bytes.now pred.now row.old }
    ensures { Counted sheet.now.bytes.now least row.old row.new result }
{
    count_within(sheet, least, pred, row, FEW)
}
