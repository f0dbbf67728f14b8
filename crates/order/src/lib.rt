// Faults 10 and 11, and the order of a sheet's plan in rows of marks. The faults of the layout and 8 are absent.
// Numbers are cast to fewer bits, which loses nothing, as the check proves: `TryFrom` would need an answer for what can't come.
#![tactic(auto)]

ghost use Rattle.std.specs.Prelude.{◌<◌, ◌≡◌, length, IfOk};
ghost use Rattle.std.proofs.Math.Option.{none};
ghost use Rattle.closure.specs.Carried.{Within};
ghost use Rattle.closure.specs.PlanRows.{Predecessors};
ghost use Rattle.finite.specs.Queue.{Stored};
ghost use Rattle.ids.specs.Limits.{most_events};
ghost use Rattle.sheet.specs.Answered.{told_by};
ghost use Rattle.sheet.specs.Table.{pairs_of};
ghost use Rattle.sheet.specs.Items.{plan_of};
ghost use Rattle.sheet.specs.Faults.{no_event, repeated, order_faults, first_fault};
ghost use Rattle.sheet.specs.Laid.{Laid};
ghost use Rattle.sheet.specs.Told.{tell, plain};
ghost use Rattle.sorting.specs.InRows.{plan_in};
ghost use Rattle.sorting.specs.Rows.{has_cycle};
ghost use Rattle.order.specs.Rows.{Blank, PairsHeld, WantedRows};

use closure::close;
use ids::{Event, PAIRS, ROWS};
use marks::{is_marked, mark};
use reader::Reader;
use sheet::Fault;
use sorting::{Pairs, Sorting, has_cycle, sort_events};

// The rows that a caller wants: those of what is before each event, those of what is after it, both or neither. A fault is told in each case.
#[derive(Clone, Copy, PartialEq, Eq)]
pub enum Wanted {
    Nothing,
    Before,
    After,
    Both,
}

// The order in rows of marks: what is after each event, and what is before it.
#[derive(Drop)]
pub struct Order {
    pub succ: [u32; ROWS],
    pub pred: [u32; ROWS],
}

impl Order {
    // No mark is set.
    pub fn blank() -> Order
        ensures { Blank result.succ × Blank result.pred }
    {
        Order {
            succ: [0; ROWS],
            pred: [0; ROWS],
        }
    }
}

// Puts the ends of pair i into the rows.
// Beside `reasons::KeptPairs::push`, which counts as it puts: here the number is the pair's own.
fn put_pair(i: usize, a: Event, b: Event, from: &mut [u8], to: &mut [u8])
    requires a_lt_most_events { (a.0 < most_events) × (b.0 < most_events) }
    requires i_in_bounds { (i < length from.old) × (i < length to.old) }
    ensures { Stored from.old from.new i a.0 × Stored to.old to.new i b.0 }
{
    from[i] = a.0 as u8;
    to[i] = b.0 as u8;
}

// 10: pair given twice; the item is the first that repeats an earlier one. Marks each pair (a, b) in row a, and puts its ends into two rows, up
// to a repeat. A loop, since each pair is looked up and marked by its number.
// The two rows of ends become `Pairs` once each pair names two events, which is known only after this.
pub fn mark_pairs(
    sheet: &Reader,
    succ: &mut [u32; ROWS],
    from: &mut [u8; PAIRS],
    to: &mut [u8; PAIRS],
) -> Result<(), Fault>
    requires laid { Laid sheet.now.bytes.now }
    requires events_named { no_event sheet.now.bytes.now ≡ none }
    requires blank { Blank succ.old }
    ensures fault { told_by result ≡ tell 10 (repeated sheet.now.bytes.now) }
    ensures pairs_held { IfOk result (λ _. PairsHeld (plan_of sheet.now.bytes.now) (pairs_of sheet.now.bytes.now) succ.new from.new to.new) }
{
    for i in 0..sheet.pairs() {
        let a = sheet.earlier(i);
        let b = sheet.later(i);
        if is_marked(succ, a.0, b.0) {
            return Err(Fault::Repeated(i as u32));
        }
        mark(succ, a.0, b.0);
        put_pair(i, a, b, from, to);
    }
    Ok(())
}

// 11: the pairs have a cycle.
// Never inlined: its sorting would stand on the stack beside the one of `arrange`, and each call needs one of them.
#[inline(never)]
fn find_cycle(pairs: &Pairs) -> Result<(), Fault>
    ensures { told_by result ≡ tell 11 (plain (has_cycle (plan_in pairs.now))) }
{
    if has_cycle(pairs) {
        return Err(Fault::Cycle);
    }
    Ok(())
}

// 11 too, and where there is no cycle the rows of what is before each event.
fn arrange(pairs: &Pairs, rows: &mut [u32; ROWS]) -> Result<(), Fault>
    requires within { Within (plan_in pairs.now) rows.old }
    ensures fault { told_by result ≡ tell 11 (plain (has_cycle (plan_in pairs.now))) }
    ensures predecessors { IfOk result (λ _. Predecessors (plan_in pairs.now) rows.new) }
{
    let mut sorting = Sorting::blank();
    if sort_events(pairs, &mut sorting) < pairs.events {
        return Err(Fault::Cycle);
    }
    close(pairs, &sorting, rows);
    Ok(())
}

// The first of faults 10 and 11. If there is none, the rows that are wanted say what is before each event and what is after it: what is after is what
// is before with the pairs turned.
pub fn order_fault(sheet: &Reader, wanted: Wanted, order: &mut Order) -> Result<(), Fault>
    requires laid { Laid sheet.now.bytes.now }
    requires events_named { no_event sheet.now.bytes.now ≡ none }
    requires blank { Blank order.old.succ × Blank order.old.pred }
    ensures fault { told_by result ≡ first_fault order_faults sheet.now.bytes.now }
    ensures rows { IfOk result (λ _. WantedRows wanted (plan_of sheet.now.bytes.now) order.new.succ order.new.pred) }
{
    let mut from = [0u8; PAIRS];
    let mut to = [0u8; PAIRS];
    mark_pairs(sheet, &mut order.succ, &mut from, &mut to)?;
    let pairs = Pairs {
        events: sheet.events(),
        count: sheet.pairs(),
        from: &from,
        to: &to,
    };
    match wanted {
        Wanted::Nothing => find_cycle(&pairs),
        Wanted::Before => arrange(&pairs, &mut order.pred),
        Wanted::After => arrange(&pairs.turned(), &mut order.succ),
        Wanted::Both => {
            arrange(&pairs, &mut order.pred)?;
            arrange(&pairs.turned(), &mut order.succ)
        }
    }
}
