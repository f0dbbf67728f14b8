// The reason of each pair of a sheet: that it names no event, that it is of an event with itself, that it repeats an earlier pair; a pair without one is
// kept.
// Numbers are cast to fewer bits, which loses nothing, as the check proves: `TryFrom` would need an answer for what can't come.
#![tactic(auto)]

ghost use Rattle.std.specs.Prelude.{◌<◌, ◌≤◌, ◌||◌, ◌≡◌, leb, length, Some, None};
ghost use Rattle.finite.specs.Filled.{Filled};
ghost use Rattle.ids.specs.Limits.{most_events, most_pairs};
ghost use Rattle.sheet.specs.Laid.{Laid};
ghost use Rattle.sheet.specs.Table.{pairs_of};
ghost use Rattle.reasons.specs.Bytes.{byte_of};
ghost use Rattle.reasons.specs.declared.Reason.TheVariants.{NoEvent};
ghost use Rattle.reasons.specs.Reasons.{reason_at};
ghost use Rattle.reasons.specs.KeptRows.{reason_by, KeptOf, Pushed, KeptOrDropped};

use ids::{Event, PAIRS, ROWS};
use marks::{is_marked, mark};
use reader::Reader;

// Why a pair is dropped. A pair that is kept has none.
#[derive(Clone, Copy, PartialEq, Eq)]
pub enum Reason {
    NoEvent,
    OneEvent,
    Repeat,
}

impl Reason {
    // The byte that says it in a lent row, 0 of a pair that is kept.
    // Both ways by hand: `From` can't be written for an `Option`, and C's header promises the numbers.
    pub fn byte(reason: Option<Reason>) -> u8
        ensures { result ≡ byte_of reason }
    {
        match reason {
            None => 0,
            Some(Reason::NoEvent) => 1,
            Some(Reason::OneEvent) => 2,
            Some(Reason::Repeat) => 3,
        }
    }

    // What such a byte says.
    pub fn said(byte: u8) -> Option<Reason>
        ensures said { byte ≤ 3 → byte_of result ≡ byte }
        ensures no_other { 3 < byte → result ≡ None }
    {
        match byte {
            1 => Some(Reason::NoEvent),
            2 => Some(Reason::OneEvent),
            3 => Some(Reason::Repeat),
            _ => None,
        }
    }
}

// Pairs whose ends stand in two rows, each pair behind those before it.
// Two rows of fixed size and how many of each are filled: no library crate has a heap, and the pairs are sorted by such rows.
#[derive(Drop)]
pub struct KeptPairs {
    pub count: usize,
    pub from: [u8; PAIRS],
    pub to: [u8; PAIRS],
}

impl KeptPairs {
    pub fn none() -> KeptPairs
        ensures { result.count ≡ 0 }
    {
        KeptPairs {
            count: 0,
            from: [0; PAIRS],
            to: [0; PAIRS],
        }
    }

    // Puts the pair (a, b) behind the others.
    fn push(&mut self, a: Event, b: Event)
        requires named { (a.0 < most_events) × (b.0 < most_events) }
        requires room { self.old.count < most_pairs }
        ensures { Pushed self.old self.new a.0 b.0 }
    {
        self.from[self.count] = a.0 as u8;
        self.to[self.count] = b.0 as u8;
        self.count += 1;
    }
}

// The pair (a, b) names no event.
fn names_no_event(events: usize, a: Event, b: Event) -> bool
    ensures { result ≡ (leb events a.0 || leb events b.0) }
{
    a.0 >= events || b.0 >= events
}

// The reason of the pair (a, b) after those that are marked.
fn reason_of(events: usize, a: Event, b: Event, succ: &[u32; ROWS]) -> Option<Reason>
    requires { events ≤ most_events }
    ensures { byte_of result ≡ reason_by events succ.now a.0 b.0 }
{
    if names_no_event(events, a, b) {
        return Some(Reason::NoEvent);
    }
    if a == b {
        return Some(Reason::OneEvent);
    }
    if is_marked(succ, a.0, b.0) {
        return Some(Reason::Repeat);
    }
    None
}

// If the pair (a, b) is kept, marks it and puts it behind the others.
fn keep(reason: Option<Reason>, a: Event, b: Event, succ: &mut [u32; ROWS], kept: &mut KeptPairs)
    requires named { ¬ (reason ≡ Some NoEvent) → (a.0 < most_events) × (b.0 < most_events) }
    requires room { kept.old.count < most_pairs }
    ensures { KeptOrDropped succ.old succ.new kept.old kept.new a.0 b.0 (byte_of reason) }
{
    if reason.is_none() {
        mark(succ, a.0, b.0);
        kept.push(a, b);
    }
}

// Writes the reason of each pair, and tells the pairs that are kept. These are marked in rows, by which a repeat is seen.
pub fn give_reasons(sheet: &Reader, reasons: &mut [u8], kept: &mut KeptPairs)
    requires laid { Laid sheet.now.bytes.now }
    requires most_pairs_in_bounds { most_pairs ≤ length reasons.old }
    ensures filled { Filled (reason_at sheet.now.bytes.now) (pairs_of sheet.now.bytes.now) reasons.old reasons.new }
    ensures kept { KeptOf sheet.now.bytes.now kept.new }
{
    let mut succ = [0u32; ROWS];
    kept.count = 0;
    // By number: the sheet is read by it, and an iterator over the row would be no plainer.
    for i in 0..sheet.pairs() {
        let a = sheet.earlier(i);
        let b = sheet.later(i);
        let reason = reason_of(sheet.events(), a, b, &succ);
        reasons[i] = Reason::byte(reason);
        keep(reason, a, b, &mut succ, kept);
    }
}
