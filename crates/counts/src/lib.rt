// The two sides of a place's end count: what it opens with and is given, and what is taken from it.
// The two loops differ in what they read and where they start: one for both would be no plainer than the two.
#![tactic(auto)]

ghost use Rattle.std.specs.Prelude.{◌<◌, ◌≡◌};
ghost use Rattle.sheet.specs.Faultless.{Faultless};
ghost use Rattle.sheet.specs.Table.{places_of};
ghost use Rattle.counts.specs.Ends.{gained_at, lost_at};

use ids::{Event, Place};
use reader::Reader;

// The opening count of a place and what all events give to it.
pub fn gained(sheet: &Reader, p: Place) -> u32
    requires faultless { Faultless sheet.now.bytes.now }
    requires known { p.0 < places_of sheet.now.bytes.now }
    ensures { result ≡ gained_at sheet.now.bytes.now p.0 }
{
    let mut sum = sheet.opening(p);
    for v in 0..sheet.events() {
        sum += sheet.gives(sheet.label(Event(v)), p);
    }
    sum
}

// What all events take from a place.
pub fn lost(sheet: &Reader, p: Place) -> u32
    requires faultless { Faultless sheet.now.bytes.now }
    requires known { p.0 < places_of sheet.now.bytes.now }
    ensures { result ≡ lost_at sheet.now.bytes.now p.0 }
{
    let mut sum: u32 = 0;
    for v in 0..sheet.events() {
        sum += sheet.takes(sheet.label(Event(v)), p);
    }
    sum
}
