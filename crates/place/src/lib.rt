// One place of a sheet's plan, settled over all orders, and its counts.
// Numbers are cast to fewer bits, which loses nothing, as the check proves: `TryFrom` would need an answer for what can't come.
#![tactic(auto)]

ghost use Rattle.std.specs.Prelude.{◌-◌, ◌<◌, ◌≡◌, length, set};
ghost use Rattle.std.proofs.Math.IntN.{sub_ℕ};
ghost use Rattle.closure.specs.PlanRows.{Predecessors};
ghost use Rattle.finite.specs.Filled.{Filled};
ghost use Rattle.least.specs.PlaceRows.{RowsFor};
ghost use Rattle.sheet.specs.Faultless.{Faultless};
ghost use Rattle.sheet.specs.Items.{plan_of};
ghost use Rattle.sheet.specs.Table.{places_of, events_of};
ghost use Rattle.place.specs.Place.{gives_in, takes_in, SettledHere};
ghost use Rattle.place.specs.Judged.{CountedHere};
ghost use Rattle.tokenflow.specs.Lent.{rows_in};

use ids::{EVENTS, Event, Place, ROWS, WORDS};
use least::settle_rows;
use ranks::event_order;
use reader::Reader;
use tokenflow::Flow;

// What each event gives to the place and takes from it.
fn fill(sheet: &Reader, p: Place, free: &mut [u32; EVENTS], share: &mut [u32; EVENTS])
    requires faultless { Faultless sheet.now.bytes.now }
    requires known { p.0 < places_of sheet.now.bytes.now }
    ensures gives { Filled (gives_in sheet.now.bytes.now p.0) (events_of sheet.now.bytes.now) free.old free.new }
    ensures takes { Filled (takes_in sheet.now.bytes.now p.0) (events_of sheet.now.bytes.now) share.old share.new }
{
    // By number, since the number is the event, and two rows are filled.
    for v in 0..sheet.events() {
        let t = sheet.label(Event(v));
        free[v] = sheet.gives(t, p);
        share[v] = sheet.takes(t, p);
    }
}

// Settles a place of a sheet without fault. Returns what the takers lack at last, as `settle_rows` does; the lent rows hold what shows it.
// What `free` and `share` held before doesn't matter.
pub fn settle_place(
    sheet: &Reader,
    p: Place,
    enough: u32,
    pred: &[u32; ROWS],
    ranked: &[usize; EVENTS],
    flow: &mut Flow,
    givers: &mut [u32; WORDS],
) -> u32
    requires faultless { Faultless sheet.now.bytes.now }
    requires known { p.0 < places_of sheet.now.bytes.now }
    requires predecessors { Predecessors (plan_of sheet.now.bytes.now) pred.now }
    requires rows_for { RowsFor (events_of sheet.now.bytes.now) flow.old.amount.now flow.old.fed.now }
    ensures settled { SettledHere sheet.now.bytes.now p enough pred.now flow.new.amount.now flow.new.fed.now flow.new.share.now givers.new result }
    ensures same_rows { (rows_in flow.new).names ≡ (rows_in flow.old).names }
{
    fill(sheet, p, flow.free, flow.share);
    settle_rows(pred, ranked, flow, givers, enough, sheet.events())
}

// What is lacking above the opening count.
pub fn above(lacks: u32, opening: u32) -> u32
    ensures { result ≡ lacks - opening }
{
    lacks.saturating_sub(opening)
}

// The opening count less the least one, with its sign. What is below 2 to the power of 31 fits with a sign, and so does a difference of two.
fn less(opening: u32, least: u32) -> i32
    requires { (opening < 2147483648) × (least < 2147483648) }
    ensures { result ≡ sub_ℕ opening least }
{
    opening as i32 - least as i32
}

// What a place is told to lack and to have: the missing count and the spare count.
#[derive(Clone, Copy)]
pub struct PlaceCounts {
    pub missing: u32,
    pub spare: i32,
}

// The counts of a place. Nothing is enough to stop at, so that settling ends with the least opening count. `givers` marks the smallest done
// set if something is missing, and the other rows hold a tokenflow.
pub fn place_counts(
    sheet: &Reader,
    p: Place,
    pred: &[u32; ROWS],
    flow: &mut Flow,
    givers: &mut [u32; WORDS],
) -> PlaceCounts
    requires faultless { Faultless sheet.now.bytes.now }
    requires known { p.0 < places_of sheet.now.bytes.now }
    requires predecessors { Predecessors (plan_of sheet.now.bytes.now) pred.now }
    requires rows_for { RowsFor (events_of sheet.now.bytes.now) flow.old.amount.now flow.old.fed.now }
    ensures counted { CountedHere sheet.now.bytes.now p pred.now flow.new.amount.now flow.new.fed.now flow.new.share.now givers.new result }
    ensures same_rows { (rows_in flow.new).names ≡ (rows_in flow.old).names }
{
    let mut ranked = [0usize; EVENTS];
    event_order(pred, sheet.events(), &mut ranked);
    let opens = sheet.opening(p);
    let least = settle_place(sheet, p, 0, pred, &ranked, flow, givers);
    let missing = above(least, opens);
    let spare = less(opens, least);
    PlaceCounts { missing, spare }
}
