// Faults 5 to 9, item after item up to the first at fault, on a sheet whose layout has no fault.
// Numbers are cast to fewer bits, which loses nothing, as the check proves: `TryFrom` would need an answer for what can't come.
// Each loop stops at the first item that fails its own test. One loop for all would take the test as a closure, and with it say each clause twice: no plainer.
#![tactic(auto)]

ghost use Rattle.std.specs.Prelude.{◌<◌, ◌≡◌};
ghost use Rattle.sheet.specs.Answered.{told_by};
ghost use Rattle.sheet.specs.Faults.{over_opening, over_weight_in, over_weight, no_transition, no_event, self_pair, number_faults, first_fault};
ghost use Rattle.sheet.specs.Laid.{Laid};
ghost use Rattle.sheet.specs.Table.{transitions_of};
ghost use Rattle.sheet.specs.Told.{tell};

use ids::{Event, Place, Transition};
use reader::Reader;
use sheet::Fault;

// The highest opening count and the highest weight.
const OPENING: u32 = 1000000;

pub const WEIGHT: u32 = 1000;

// 5: opening count above 1,000,000; the item is the place.
pub fn over_opening(sheet: &Reader) -> Result<(), Fault>
    requires { Laid sheet.now.bytes.now }
    ensures { told_by result ≡ tell 5 (over_opening sheet.now.bytes.now) }
{
    for p in 0..sheet.places() {
        if sheet.opening(Place(p)) > OPENING {
            return Err(Fault::OverOpening(p as u32));
        }
    }
    Ok(())
}

// 6: weight above 1,000, at one transition.
fn over_weight_in(sheet: &Reader, t: Transition) -> bool
    requires laid { Laid sheet.now.bytes.now }
    requires known { t.0 < transitions_of sheet.now.bytes.now }
    ensures { result ≡ over_weight_in sheet.now.bytes.now t.0 }
{
    for p in 0..sheet.places() {
        if sheet.takes(t, Place(p)) > WEIGHT {
            return true;
        }
        if sheet.gives(t, Place(p)) > WEIGHT {
            return true;
        }
    }
    false
}

// 6: weight above 1,000; the item is the transition.
fn over_weight(sheet: &Reader) -> Result<(), Fault>
    requires { Laid sheet.now.bytes.now }
    ensures { told_by result ≡ tell 6 (over_weight sheet.now.bytes.now) }
{
    for t in 0..sheet.transitions() {
        if over_weight_in(sheet, Transition(t)) {
            return Err(Fault::OverWeight(t as u32));
        }
    }
    Ok(())
}

// 7: event names no transition; the item is the event.
pub fn no_transition(sheet: &Reader) -> Result<(), Fault>
    requires { Laid sheet.now.bytes.now }
    ensures { told_by result ≡ tell 7 (no_transition sheet.now.bytes.now) }
{
    for v in 0..sheet.events() {
        let t = sheet.label(Event(v));
        if t.0 >= sheet.transitions() {
            return Err(Fault::NoTransition(v as u32));
        }
    }
    Ok(())
}

// The first of faults 5, 6 and 7: those of the numbers that stand before the pairs.
pub fn number_fault(sheet: &Reader) -> Result<(), Fault>
    requires { Laid sheet.now.bytes.now }
    ensures { told_by result ≡ first_fault number_faults sheet.now.bytes.now }
{
    over_opening(sheet)?;
    over_weight(sheet)?;
    no_transition(sheet)
}

// 8: pair names no event; the item is the pair.
pub fn no_event(sheet: &Reader) -> Result<(), Fault>
    requires { Laid sheet.now.bytes.now }
    ensures { told_by result ≡ tell 8 (no_event sheet.now.bytes.now) }
{
    for i in 0..sheet.pairs() {
        let u = sheet.earlier(i);
        if u.0 >= sheet.events() {
            return Err(Fault::NoEvent(i as u32));
        }
        let v = sheet.later(i);
        if v.0 >= sheet.events() {
            return Err(Fault::NoEvent(i as u32));
        }
    }
    Ok(())
}

// 9: pair of an event with itself; the item is the pair.
pub fn self_pair(sheet: &Reader) -> Result<(), Fault>
    requires { Laid sheet.now.bytes.now }
    ensures { told_by result ≡ tell 9 (self_pair sheet.now.bytes.now) }
{
    for i in 0..sheet.pairs() {
        if sheet.earlier(i) == sheet.later(i) {
            return Err(Fault::SelfPair(i as u32));
        }
    }
    Ok(())
}
