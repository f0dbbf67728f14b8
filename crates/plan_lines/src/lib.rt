// The lines of a listing of a sheet without fault, put after what was written before. Each place is settled once: the least opening counts and the
// done set of the first short place are handed on.
// Numbers are cast to fewer bits, which loses nothing, as the check proves: `TryFrom` would need an answer for what can't come.
#![tactic(auto)]

ghost use Rattle.std.specs.Prelude.{◌+◌, ◌≤◌, ◌≡◌, length};
ghost use Rattle.closure.specs.PlanRows.{Predecessors};
ghost use Rattle.lines.specs.Listing.{count_lines, lines_of};
ghost use Rattle.lines.specs.LeastRow.{LeastRow};
ghost use Rattle.lines.specs.Room.{counts_room, listing_room};
ghost use Rattle.place.specs.Place.{missing_at};
ghost use Rattle.sheet.specs.Faultless.{Faultless};
ghost use Rattle.sheet.specs.Items.{net_of, plan_of};
ghost use Rattle.sheet.specs.Table.{places_of};
ghost use Rattle.summary.specs.Summary.{total_missing, short_places};
ghost use Rattle.text.specs.Output.{Written};

use free_pairs::free_count;
use ids::{PLACES, ROWS, WORDS};
use last_line::put_verdict;
use lines::{put_plan, put_totals};
use place_counts::above_openings;
use place_lines::put_places;
use reader::Reader;
use sized_counts::count_all;
use summary::{Totals, sum_up};
use text::Output;

// The lines that tell counts, with the order and the least opening counts in rows and what the missing ones come to.
fn put_counts(
    out: &mut Output,
    sheet: &Reader,
    pred: &[u32; ROWS],
    least: &[u32; PLACES],
    totals: Totals,
)
    requires faultless { Faultless sheet.now.bytes.now }
    requires predecessors { Predecessors (plan_of sheet.now.bytes.now) pred.now }
    requires least_row { LeastRow sheet.now.bytes.now least.now }
    requires short_value { totals.short ≡ short_places (missing_at sheet.now.bytes.now) (places_of sheet.now.bytes.now) }
    requires total_value { totals.total ≡ total_missing (missing_at sheet.now.bytes.now) (places_of sheet.now.bytes.now) }
    requires fits { out.old.at + listing_room ≤ length out.old.row.now }
    ensures written { Written out.old (count_lines (net_of sheet.now.bytes.now) (plan_of sheet.now.bytes.now)) out.new }
    ensures room { out.new.at ≤ out.old.at + counts_room }
{
    let free = free_count(pred, sheet.events());
    put_plan(out, sheet.events() as u32, sheet.pairs() as u32, free);
    put_places(out, sheet, least);
    put_totals(out, totals.short, totals.total);
}

// The listing of a sheet without fault, whose order is in a row.
pub fn put_lines(out: &mut Output, sheet: &Reader, pred: &[u32; ROWS])
    requires faultless { Faultless sheet.now.bytes.now }
    requires predecessors { Predecessors (plan_of sheet.now.bytes.now) pred.now }
    requires fits { out.old.at + listing_room ≤ length out.old.row.now }
    ensures { Written out.old (lines_of (net_of sheet.now.bytes.now) (plan_of sheet.now.bytes.now)) out.new }
{
    let mut least = [0u32; PLACES];
    let mut missing = [0u32; PLACES];
    let first = count_all(sheet, true, pred, &mut least);
    above_openings(sheet, &least, &mut missing);
    let totals = sum_up(&missing, sheet.places());
    put_counts(out, sheet, pred, &least, totals);
    let done = first.unwrap_or([0; WORDS]);
    put_verdict(out, totals.verdict, &done, sheet.events());
}
