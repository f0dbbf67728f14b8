// The reader of a sheet: the lent bytes together with the sheet's layout, which has its four counts. Contracts name its bytes; that the layout is
// theirs is known of each reader. Its fields are private, so that `read` and `read_laid` alone make one for another crate. Each lookup leaves the
// work to the function of the same name on bytes and layout.
#![tactic(auto)]

ghost use Rattle.std.specs.Prelude.{◌<◌, ◌≤◌, ◌≡◌, length, IfOk};
ghost use Rattle.sheet.specs.Answered.{told_by};
ghost use Rattle.sheet.specs.Faults.{layout_faults, first_fault};
ghost use Rattle.sheet.specs.Items.{opening_at, takes_at, gives_at, label_at, earlier_at, later_at};
ghost use Rattle.sheet.specs.Laid.{Laid};
ghost use Rattle.sheet.specs.Table.{table_length, places_of, transitions_of, events_of, pairs_of};
ghost use Rattle.layout.specs.Layout.{LayoutOf};

use ids::{Event, Place, Transition};
use layout::{Layout, find_layout, layout_of};
use sheet::Fault;

#[derive(Clone, Copy)]
pub struct Reader<'a> {
    bytes: &'a [u8],
    layout: Layout,
    ghost laid: { LayoutOf bytes.now layout },
}

// The reader of a sheet that has a table.
pub fn read<'a>(sheet: &'a [u8]) -> Reader<'a>
    requires { table_length ≤ length sheet.now }
    ensures same { result.bytes ≡ sheet.entry }
    ensures bytes { result.bytes.now ≡ sheet.now }
{
    Reader {
        bytes: sheet,
        layout: layout_of(sheet),
    }
}

// The reader of a sheet whose layout has no fault, else the first of its faults.
pub fn read_laid<'a>(sheet: &'a [u8]) -> Result<Reader<'a>, Fault>
    ensures fault { told_by result ≡ first_fault layout_faults sheet.now }
    ensures laid { IfOk result (λ r. (r.bytes.now ≡ sheet.now) × Laid sheet.now) }
{
    let layout = find_layout(sheet)?;
    Ok(Reader {
        bytes: sheet,
        layout,
    })
}

impl<'a> Reader<'a> {
    pub fn bytes(&self) -> &[u8]
        ensures { result.now ≡ self.now.bytes.now }
    {
        self.bytes
    }

    pub fn layout(&self) -> Layout
        ensures { LayoutOf self.now.bytes.now result }
    {
        self.layout
    }

    pub fn places(&self) -> usize
        ensures { result ≡ places_of self.now.bytes.now }
    {
        self.layout.places
    }

    pub fn transitions(&self) -> usize
        ensures { result ≡ transitions_of self.now.bytes.now }
    {
        self.layout.transitions
    }

    pub fn events(&self) -> usize
        ensures { result ≡ events_of self.now.bytes.now }
    {
        self.layout.events
    }

    pub fn pairs(&self) -> usize
        ensures { result ≡ pairs_of self.now.bytes.now }
    {
        self.layout.pairs
    }

    // The opening count of a place.
    pub fn opening(&self, p: Place) -> u32
        requires laid { Laid self.now.bytes.now }
        requires known { p.0 < places_of self.now.bytes.now }
        ensures { result ≡ opening_at self.now.bytes.now p.0 }
    {
        lookup::opening(self.bytes, self.layout, p)
    }

    // What a transition takes from a place, and what it gives to it.
    pub fn takes(&self, t: Transition, p: Place) -> u32
        requires laid { Laid self.now.bytes.now }
        requires known { (t.0 < transitions_of self.now.bytes.now) × (p.0 < places_of self.now.bytes.now) }
        ensures { result ≡ takes_at self.now.bytes.now t.0 p.0 }
    {
        lookup::takes(self.bytes, self.layout, t, p)
    }

    pub fn gives(&self, t: Transition, p: Place) -> u32
        requires laid { Laid self.now.bytes.now }
        requires known { (t.0 < transitions_of self.now.bytes.now) × (p.0 < places_of self.now.bytes.now) }
        ensures { result ≡ gives_at self.now.bytes.now t.0 p.0 }
    {
        lookup::gives(self.bytes, self.layout, t, p)
    }

    // The transition that an event is labelled with.
    pub fn label(&self, v: Event) -> Transition
        requires laid { Laid self.now.bytes.now }
        requires known { v.0 < events_of self.now.bytes.now }
        ensures { result.0 ≡ label_at self.now.bytes.now v.0 }
    {
        lookup::label(self.bytes, self.layout, v)
    }

    // The earlier and the later event of a pair.
    pub fn earlier(&self, i: usize) -> Event
        requires laid { Laid self.now.bytes.now }
        requires known { i < pairs_of self.now.bytes.now }
        ensures { result.0 ≡ earlier_at self.now.bytes.now i }
    {
        lookup::earlier(self.bytes, self.layout, i)
    }

    pub fn later(&self, i: usize) -> Event
        requires laid { Laid self.now.bytes.now }
        requires known { i < pairs_of self.now.bytes.now }
        ensures { result.0 ≡ later_at self.now.bytes.now i }
    {
        lookup::later(self.bytes, self.layout, i)
    }
}
