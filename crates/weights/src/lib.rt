// Faults 5 to 7 of a sheet that is likely to have none: all weights of a transition are looked at, which takes a fifth of the time of stopping at the
// first that is above the limit. Only if one is, it is looked for.
#![tactic(auto)]

ghost use Rattle.std.specs.Prelude.{◌<◌, ◌≡◌};
ghost use Rattle.finite.specs.Bounded.{any};
ghost use Rattle.sheet.specs.Answered.{told_by};
ghost use Rattle.sheet.specs.Faults.{over_weight_in, number_faults, first_fault};
ghost use Rattle.sheet.specs.Laid.{Laid};
ghost use Rattle.sheet.specs.Table.{transitions_of};

use ids::{Place, Transition};
use items::{WEIGHT, no_transition, number_fault, over_opening};
use reader::Reader;
use sheet::Fault;

// Whether a transition has a weight above the limit.
fn is_heavy(sheet: &Reader, t: Transition) -> bool
    requires laid { Laid sheet.now.bytes.now }
    requires known { t.0 < transitions_of sheet.now.bytes.now }
    ensures { result ≡ over_weight_in sheet.now.bytes.now t.0 }
{
    let mut heavy = false;
    for p in 0..sheet.places() {
        heavy |= sheet.takes(t, Place(p)) > WEIGHT;
        heavy |= sheet.gives(t, Place(p)) > WEIGHT;
    }
    heavy
}

// Whether any transition has.
fn any_heavy(sheet: &Reader) -> bool
    requires { Laid sheet.now.bytes.now }
    ensures { result ≡ any (transitions_of sheet.now.bytes.now) (over_weight_in sheet.now.bytes.now) }
{
    let mut heavy = false;
    for t in 0..sheet.transitions() {
        heavy |= is_heavy(sheet, Transition(t));
    }
    heavy
}

// The first of faults 5, 6 and 7, of a sheet that rarely has one.
pub fn rare_number_fault(sheet: &Reader) -> Result<(), Fault>
    requires { Laid sheet.now.bytes.now }
    ensures { told_by result ≡ first_fault number_faults sheet.now.bytes.now }
{
    if any_heavy(sheet) {
        return number_fault(sheet);
    }
    over_opening(sheet)?;
    no_transition(sheet)
}
