// An answer told in numbers: the fault's number is returned, and what C gets through pointers is written in every case.
#![tactic(auto)]

ghost use Rattle.std.specs.Prelude.{◌≤◌, ◌≡◌};
ghost use Rattle.calls.specs.Said.{says as saysValue};
ghost use Rattle.ids.specs.Limits.{most_places};
ghost use Rattle.plan_judgement.specs.Judgement.{says};
ghost use Rattle.sheet.specs.Answered.{told_by};
ghost use Rattle.answers.specs.ForC.{first_said, value_or, FaultTold, PlanTold, PlaceTold, CheckTold, ListingTold, MendTold};

use sheet::Fault;
use summary::{Totals, first_place};

// A fault, or that there is none.
pub fn tell_fault<T: Copy>(answer: Result<T, Fault>, item: &mut u32) -> u32
    ensures { FaultTold (told_by answer) result item.new }
{
    match answer {
        Ok(_) => {
            *item = 0;
            0
        }
        Err(fault) => {
            *item = fault.item();
            fault.number()
        }
    }
}

// An answer of one value, for which `none` stands where the call is refused.
fn tell_value<T: Copy>(answer: Result<T, Fault>, none: T, item: &mut u32, value: &mut T) -> u32
    ensures fault { FaultTold (saysValue answer).fault result item.new }
    ensures value { value.new ≡ value_or none (λ x. x) (saysValue answer).values }
{
    *value = answer.unwrap_or(none);
    tell_fault(answer, item)
}

// What the plan judgement says.
pub fn tell_plan(
    answer: Result<Totals, Fault>,
    item: &mut u32,
    total: &mut u32,
    short: &mut u32,
    first: &mut u32,
) -> u32
    requires { first_said (says answer) ≤ most_places }
    ensures { PlanTold (says answer) result item.new total.new short.new first.new }
{
    match answer {
        Ok(totals) => {
            *total = totals.total;
            *short = totals.short;
            *first = first_place(totals.verdict);
        }
        Err(_) => {
            *total = 0;
            *short = 0;
            *first = 0;
        }
    }
    tell_fault(answer, item)
}

// What the place judgement says.
pub fn tell_place(answer: Result<i32, Fault>, item: &mut u32, spare: &mut i32) -> u32
    ensures { PlaceTold (saysValue answer) result item.new spare.new }
{
    tell_value(answer, 0, item, spare)
}

// What the flow check says.
pub fn tell_check(answer: Result<bool, Fault>, item: &mut u32, valid: &mut u32) -> u32
    ensures { CheckTold (saysValue answer) result item.new valid.new }
{
    *valid = u32::from(answer.unwrap_or(false));
    tell_fault(answer, item)
}

// What the listing's call says. Its one fault has no item.
pub fn tell_listing(answer: Result<usize, Fault>, written: &mut usize) -> u32
    ensures { ListingTold (saysValue answer) result written.new }
{
    let mut item = 0;
    tell_value(answer, 0, &mut item, written)
}

// What the mending call says.
pub fn tell_mend(answer: Result<usize, Fault>, item: &mut u32, size: &mut usize) -> u32
    ensures { MendTold (saysValue answer) result item.new size.new }
{
    tell_value(answer, 0, item, size)
}
