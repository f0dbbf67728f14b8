// The open calls for C: the bytes and rows that are lent, and the answer told in numbers. The crate reedanchor_c exports them.
#![tactic(auto)]

ghost use Rattle.std.specs.Prelude.{◌≡◌};
ghost use Rattle.flowcheck.specs.Checked.{check_says};
ghost use Rattle.listed.specs.Listed.{list_says, row_after};
ghost use Rattle.mending.specs.Mended.{mend_says, clean_after, reasons_after};
ghost use Rattle.place_judgement.specs.Judgement.{judgement_says, Handed, marks_after};
ghost use Rattle.plan_judgement.specs.Judgement.{plan_says, row_of};
ghost use Rattle.answers.specs.ForC.{FaultTold, PlanTold, PlaceTold, CheckTold, ListingTold, MendTold};
ghost use Rattle.till.specs.Till.{till_answer};
ghost use Rattle.sheet.specs.Faults.{fault_of};

use answers::{tell_check, tell_fault, tell_listing, tell_mend, tell_place, tell_plan};
use fault::fault_of;
use flowcheck::check_flow;
use ids::{PLACES, Place};
use listed::write_listing;
use mending::mend;
use place_judgement::judge_place;
use plan_judgement::judge_plan;
use till::answer_number;

// The till server's call. The row that it lends has a number for each place that a sheet may have, so fault 13 doesn't arise.
pub fn reedanchor_judge(sheet: &[u8]) -> u32
    ensures { result ≡ till_answer sheet.now }
{
    let mut row = [0u32; PLACES];
    let a = judge_plan(sheet, &mut row);
    answer_number(a)
}

// The fault of a sheet.
pub fn reedanchor_fault(sheet: &[u8], item: &mut u32) -> u32
    ensures { FaultTold (fault_of sheet.now) result item.new }
{
    let f = fault_of(sheet);
    tell_fault(f, item)
}

// The plan judgement.
pub fn reedanchor_plan(
    sheet: &[u8],
    row: &mut [u32],
    item: &mut u32,
    total: &mut u32,
    short: &mut u32,
    first: &mut u32,
) -> u32
    ensures plan_told { PlanTold (plan_says sheet.now row.old) result item.new total.new short.new first.new }
    ensures row_value { row.new ≡ row_of sheet.now row.old }
{
    let a = judge_plan(sheet, row);
    tell_plan(a, item, total, short, first)
}

// The place judgement.
pub fn reedanchor_place(
    sheet: &[u8],
    place: Place,
    flow: &mut [u32],
    marks: &mut [u8],
    item: &mut u32,
    spare: &mut i32,
) -> u32
    ensures place_told { PlaceTold (judgement_says sheet.now place.0 flow.old marks.old) result item.new spare.new }
    ensures marks_value { marks.new ≡ marks_after sheet.now place.0 flow.old marks.old }
    ensures handed { Handed sheet.now place.0 flow.old marks.old flow.new }
{
    let j = judge_place(sheet, place, flow, marks);
    tell_place(j, item, spare)
}

// The flow check.
pub fn reedanchor_check_flow(
    sheet: &[u8],
    place: Place,
    flow: &[u32],
    item: &mut u32,
    valid: &mut u32,
) -> u32
    ensures { CheckTold (check_says sheet.now place.0 flow.now) result item.new valid.new }
{
    let c = check_flow(sheet, place, flow);
    tell_check(c, item, valid)
}

// The listing.
pub fn reedanchor_listing(sheet: &[u8], text: &mut [u8], written: &mut usize) -> u32
    ensures listing_told { ListingTold (list_says sheet.now text.old) result written.new }
    ensures text_value { text.new ≡ row_after sheet.now text.old }
{
    let l = write_listing(sheet, text);
    tell_listing(l, written)
}

// The mending call.
pub fn reedanchor_mend(
    sheet: &[u8],
    clean: &mut [u8],
    reasons: &mut [u8],
    item: &mut u32,
    written: &mut usize,
) -> u32
    ensures mend_told { MendTold (mend_says sheet.now clean.old reasons.old) result item.new written.new }
    ensures clean_value { clean.new ≡ clean_after sheet.now clean.old reasons.old }
    ensures reasons_value { reasons.new ≡ reasons_after sheet.now clean.old reasons.old }
{
    let m = mend(sheet, clean, reasons);
    tell_mend(m, item, written)
}
