// The count of each place of a sheet without fault, in a row: the least opening count, or what is missing, and the done set of the first short place.
#![tactic(auto)]

ghost use Rattle.std.specs.Prelude.{◌-◌, ◌<◌, ◌≤◌, ◌≡◌, length, get_or, set};
ghost use Rattle.closure.specs.PlanRows.{Predecessors};
ghost use Rattle.finite.specs.Filled.{Filled};
ghost use Rattle.least.specs.PlaceRows.{RowsFor};
ghost use Rattle.sheet.specs.Faultless.{Faultless};
ghost use Rattle.sheet.specs.Items.{plan_of, opening_at};
ghost use Rattle.sheet.specs.Table.{places_of, events_of};
ghost use Rattle.place_counts.specs.Asked.{asked_at};
ghost use Rattle.place_counts.specs.Counting.{Countable, Counted};
ghost use Rattle.place_counts.specs.First.{DoneOf};
ghost use Rattle.tokenflow.specs.Lent.{rows_in};

use ids::{EVENTS, PLACES, Place, ROWS, WORDS};
use place::{above, settle_place};
use reader::Reader;
use tokenflow::Flow;

// The count of the place p, as the row's number p, and the marks of its done set if it is short. Settling may stop at the opening count where
// only what is missing is asked for.
// `least` says which of two counts is asked for; an enum of two cases would be no plainer.
fn count_place(
    sheet: &Reader,
    p: Place,
    least: bool,
    pred: &[u32; ROWS],
    ranked: &[usize; EVENTS],
    flow: &mut Flow,
    row: &mut [u32],
) -> Option<[u32; WORDS]>
    requires faultless { Faultless sheet.now.bytes.now }
    requires known { (p.0 < places_of sheet.now.bytes.now) × (p.0 < length row.old) }
    requires predecessors { Predecessors (plan_of sheet.now.bytes.now) pred.now }
    requires rows_for { RowsFor (events_of sheet.now.bytes.now) flow.old.amount.now flow.old.fed.now }
    ensures count { row.new ≡ set row.old p.0 (asked_at least sheet.now.bytes.now p.0) }
    ensures done { DoneOf sheet.now.bytes.now p.0 result }
    ensures rows { RowsFor (events_of sheet.now.bytes.now) flow.new.amount.now flow.new.fed.now }
    ensures same_rows { (rows_in flow.new).names ≡ (rows_in flow.old).names }
{
    let mut done = [0u32; WORDS];
    let opens = sheet.opening(p);
    let stop = if least { 0 } else { opens };
    let lacks = settle_place(sheet, p, stop, pred, ranked, flow, &mut done);
    let missing = above(lacks, opens);
    row[p.0] = if least { lacks } else { missing };
    (missing > 0).then_some(done)
}

// The count of each place, in the row's first numbers, and the marks of the done set of the first short place.
pub fn count_places(
    sheet: &Reader,
    least: bool,
    pred: &[u32; ROWS],
    ranked: &[usize; EVENTS],
    flow: &mut Flow,
    row: &mut [u32],
) -> Option<[u32; WORDS]>
    requires countable { Countable sheet.now.bytes.now pred.now row.old }
    requires rows_for { RowsFor (events_of sheet.now.bytes.now) flow.old.amount.now flow.old.fed.now }
    ensures counted { Counted sheet.now.bytes.now least row.old row.new result }
    ensures same_rows { (rows_in flow.new).names ≡ (rows_in flow.old).names }
{
    let mut first = None;
    for p in 0..sheet.places() {
        let done = count_place(sheet, Place(p), least, pred, ranked, flow, row);
        first = first.or(done);
    }
    first
}

// What each number of a row is above the place's opening count.
pub fn above_openings(sheet: &Reader, least: &[u32; PLACES], row: &mut [u32])
    requires faultless { Faultless sheet.now.bytes.now }
    requires room { places_of sheet.now.bytes.now ≤ length row.old }
    ensures { Filled (λ p. get_or least.now p 0 - opening_at sheet.now.bytes.now p) (places_of sheet.now.bytes.now) row.old row.new }
{
    let places = sheet.places();
    // By number, since the number is the place.
    for p in 0..places {
        let opens = sheet.opening(Place(p));
        row[p] = above(least[p], opens);
    }
}
