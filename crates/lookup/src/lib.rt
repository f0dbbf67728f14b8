// The items of a sheet, read from its bytes by place, transition and event numbers that cannot be mixed up. An item stands in its body after
// those with lower numbers; the sheet's layout says where the body starts. The layout has no fault. The functions take plain bytes and the layout, as the
// rules of the work ask of the core; the reader is the layer over them.
// Numbers of 32 bits are cast to `usize`, which no `From` does.
// Two of a kind, as takes and gives, differ in an offset, and are kept apart by name, as the definitions are.
#![tactic(auto)]

ghost use Rattle.std.specs.Prelude.{◌+◌, ◌*◌, ◌<◌, ◌≤◌, ◌≡◌};
ghost use Rattle.ids.specs.Limits.{most_places, most_transitions};
ghost use Rattle.sheet.specs.Items.{opening_at, takes_at, gives_at, label_at, earlier_at, later_at};
ghost use Rattle.sheet.specs.Laid.{longest_sheet};
ghost use Rattle.layout.specs.Layout.{transitions_at, LaidBy};

use ids::{Event, Place, Transition};
use layout::Layout;
use numbers::{get16, get32};

// Where the item of transition t stands: takes and gives for each place, 2 bytes each.
fn transition_at(l: Layout, t: Transition) -> usize
    requires { (l.places ≤ most_places) × (t.0 < most_transitions) × (transitions_at l ≤ longest_sheet) }
    ensures { result ≡ transitions_at l + 4 * l.places * t.0 }
{
    l.transitions_at + 4 * l.places * t.0
}

pub fn opening(s: &[u8], l: Layout, p: Place) -> u32
    requires laid_by { LaidBy s.now l }
    requires p_lt_places { p.0 < l.places }
    ensures { result ≡ opening_at s.now p.0 }
{
    get32(s, l.places_at + 4 * p.0)
}

pub fn takes(s: &[u8], l: Layout, t: Transition, p: Place) -> u32
    requires laid_by { LaidBy s.now l }
    requires t_lt_transitions { (t.0 < l.transitions) × (p.0 < l.places) }
    ensures { result ≡ takes_at s.now t.0 p.0 }
{
    get16(s, transition_at(l, t) + 2 * p.0)
}

pub fn gives(s: &[u8], l: Layout, t: Transition, p: Place) -> u32
    requires laid_by { LaidBy s.now l }
    requires t_lt_transitions { (t.0 < l.transitions) × (p.0 < l.places) }
    ensures { result ≡ gives_at s.now t.0 p.0 }
{
    get16(s, transition_at(l, t) + 2 * (l.places + p.0))
}

pub fn label(s: &[u8], l: Layout, v: Event) -> Transition
    requires laid_by { LaidBy s.now l }
    requires v_lt_events { v.0 < l.events }
    ensures { result.0 ≡ label_at s.now v.0 }
{
    let t = get16(s, l.events_at + 2 * v.0) as usize;
    Transition(t)
}

pub fn earlier(s: &[u8], l: Layout, i: usize) -> Event
    requires laid_by { LaidBy s.now l }
    requires i_lt_pairs { i < l.pairs }
    ensures { result.0 ≡ earlier_at s.now i }
{
    let v = get16(s, l.pairs_at + 4 * i) as usize;
    Event(v)
}

pub fn later(s: &[u8], l: Layout, i: usize) -> Event
    requires laid_by { LaidBy s.now l }
    requires i_lt_pairs { i < l.pairs }
    ensures { result.0 ≡ later_at s.now i }
{
    let v = get16(s, l.pairs_at + 4 * i + 2) as usize;
    Event(v)
}
