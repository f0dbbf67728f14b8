// The open calls as C sees them: pointers and lengths for the bytes and rows that are lent. Each is the call of its name in the crate reedanchor.
#![tactic(auto)]

ghost use Rattle.std.specs.Prelude.{◌≡◌};
ghost use Rattle.flowcheck.specs.Checked.{check_says};
ghost use Rattle.listed.specs.Listed.{list_says, row_after};
ghost use Rattle.mending.specs.Mended.{mend_says, clean_after, reasons_after};
ghost use Rattle.place_judgement.specs.Judgement.{judgement_says, Handed, marks_after};
ghost use Rattle.plan_judgement.specs.Judgement.{plan_says, row_of};
ghost use Rattle.answers.specs.ForC.{FaultTold, PlanTold, PlaceTold, CheckTold, ListingTold, MendTold};
ghost use Rattle.till.specs.Till.{till_answer};
ghost use Rattle.sheet.specs.Faults.{fault_of};

use ids::Place;

// The till server's call.
#[unsafe(no_mangle)]
pub extern "C" fn reedanchor_judge(sheet: &[u8]) -> u32
    ensures { result ≡ till_answer sheet.now }
{
    reedanchor::reedanchor_judge(sheet)
}

// The fault of a sheet.
#[unsafe(no_mangle)]
pub extern "C" fn reedanchor_fault(sheet: &[u8], item: &mut u32) -> u32
    ensures { FaultTold (fault_of sheet.now) result item.new }
{
    reedanchor::reedanchor_fault(sheet, item)
}

// The plan judgement.
#[unsafe(no_mangle)]
pub extern "C" fn reedanchor_plan(
    sheet: &[u8],
    row: &mut [u32],
    item: &mut u32,
    total: &mut u32,
    short: &mut u32,
    first: &mut u32,
) -> u32
    ensures plan_told { PlanTold (plan_says sheet.now row.old) result item.new total.new short.new first.new }
    ensures row_value { row.new ≡ row_of sheet.now row.old }
{
    reedanchor::reedanchor_plan(sheet, row, item, total, short, first)
}

// The place judgement.
#[unsafe(no_mangle)]
pub extern "C" fn reedanchor_place(
    sheet: &[u8],
    place: Place,
    flow: &mut [u32],
    marks: &mut [u8],
    item: &mut u32,
    spare: &mut i32,
) -> u32
    ensures place_told { PlaceTold (judgement_says sheet.now place.0 flow.old marks.old) result item.new spare.new }
    ensures marks_value { marks.new ≡ marks_after sheet.now place.0 flow.old marks.old }
    ensures handed { Handed sheet.now place.0 flow.old marks.old flow.new }
{
    reedanchor::reedanchor_place(sheet, place, flow, marks, item, spare)
}

// The flow check.
#[unsafe(no_mangle)]
pub extern "C" fn reedanchor_check_flow(
    sheet: &[u8],
    place: Place,
    flow: &[u32],
    item: &mut u32,
    valid: &mut u32,
) -> u32
    ensures { CheckTold (check_says sheet.now place.0 flow.now) result item.new valid.new }
{
    reedanchor::reedanchor_check_flow(sheet, place, flow, item, valid)
}

// The listing.
#[unsafe(no_mangle)]
pub extern "C" fn reedanchor_listing(sheet: &[u8], text: &mut [u8], written: &mut usize) -> u32
    ensures listing_told { ListingTold (list_says sheet.now text.old) result written.new }
    ensures text_value { text.new ≡ row_after sheet.now text.old }
{
    reedanchor::reedanchor_listing(sheet, text, written)
}

// The mending call.
#[unsafe(no_mangle)]
pub extern "C" fn reedanchor_mend(
    sheet: &[u8],
    clean: &mut [u8],
    reasons: &mut [u8],
    item: &mut u32,
    written: &mut usize,
) -> u32
    ensures mend_told { MendTold (mend_says sheet.now clean.old reasons.old) result item.new written.new }
    ensures clean_value { clean.new ≡ clean_after sheet.now clean.old reasons.old }
    ensures reasons_value { reasons.new ≡ reasons_after sheet.now clean.old reasons.old }
{
    reedanchor::reedanchor_mend(sheet, clean, reasons, item, written)
}
