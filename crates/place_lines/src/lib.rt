// The lines of a listing that tell of one place each.
// Numbers are cast to fewer bits, which loses nothing, as the check proves: `TryFrom` would need an answer for what can't come.
#![tactic(auto)]

ghost use Rattle.std.specs.Prelude.{◌+◌, ◌<◌, ◌≤◌, ◌≡◌, length};
ghost use Rattle.std.proofs.Math.IntN.{sub_ℕ};
ghost use Rattle.ids.specs.Limits.{most_places};
ghost use Rattle.plan.specs.Prefix.{least_opening};
ghost use Rattle.sheet.specs.Table.{places_of};
ghost use Rattle.sheet.specs.Items.{net_of, plan_of};
ghost use Rattle.sheet.specs.Faultless.{Faultless};
ghost use Rattle.text.specs.Output.{Written};
ghost use Rattle.lines.specs.Room.{place_room, places_room};
ghost use Rattle.finite.specs.Each.{each};
ghost use Rattle.lines.specs.Listing.{place_line, line_of};
ghost use Rattle.lines.specs.LeastRow.{LeastRow};

use counts::{gained, lost};
use ids::{PLACES, Place};
use reader::Reader;
use text::Output;

// What is gained and lost at the place gives its end count, and the opening count less the least one its spare count.
fn put_counts(out: &mut Output, p: Place, opening: u32, gained: u32, lost: u32, least: u32)
    requires { (p.0 < most_places) × (out.old.at + place_room ≤ length out.old.row.now) }
    ensures written { Written out.old (place_line p.0 opening (sub_ℕ gained lost) (sub_ℕ opening least)) out.new }
    ensures room { out.new.at ≤ out.old.at + place_room }
{
    out.field(b"place ", p.0 as u32);
    out.field(b" open ", opening);
    out.word(b" end ");
    out.signed(gained, lost);
    out.word(b" spare ");
    out.signed(opening, least);
    out.word(b"\n");
}

// The line of the place p, with its least opening count.
fn put_place(out: &mut Output, sheet: &Reader, p: Place, least: u32)
    requires faultless { Faultless sheet.now.bytes.now }
    requires known { p.0 < places_of sheet.now.bytes.now }
    requires least_value { least ≡ least_opening (net_of sheet.now.bytes.now) (plan_of sheet.now.bytes.now) p.0 }
    requires fits { out.old.at + place_room ≤ length out.old.row.now }
    ensures written { Written out.old (line_of (net_of sheet.now.bytes.now) (plan_of sheet.now.bytes.now) p.0) out.new }
    ensures room { out.new.at ≤ out.old.at + place_room }
{
    put_counts(
        out,
        p,
        sheet.opening(p),
        gained(sheet, p),
        lost(sheet, p),
        least,
    );
}

// The lines of all places, with their least opening counts in a row.
pub fn put_places(out: &mut Output, sheet: &Reader, least: &[u32; PLACES])
    requires faultless { Faultless sheet.now.bytes.now }
    requires least_row { LeastRow sheet.now.bytes.now least.now }
    requires fits { out.old.at + places_room ≤ length out.old.row.now }
    ensures written { Written out.old (each (places_of sheet.now.bytes.now) (line_of (net_of sheet.now.bytes.now) (plan_of sheet.now.bytes.now))) out.new }
    ensures room { out.new.at ≤ out.old.at + places_room }
{
    for p in 0..sheet.places() {
        put_place(out, sheet, Place(p), least[p]);
    }
}
