// The lines of a listing that tell of the whole plan or of a refusal, each written after what was written before.
#![tactic(auto)]

ghost use Rattle.std.specs.Prelude.{◌+◌, ◌≤◌, length};
ghost use Rattle.text.specs.Output.{Written};
ghost use Rattle.lines.specs.Room.{plan_room, totals_room, refused_room};
ghost use Rattle.lines.specs.Listing.{plan_line, totals_line, refused_line};

use ids::{EVENTS, PLACES};
use text::Output;

// How many bytes a listing has at most, with ten digits to a number.
pub const PLAN_ROOM: usize = 56;

pub const PLACE_ROOM: usize = 67;

pub const PLACES_ROOM: usize = PLACES * PLACE_ROOM;

pub const TOTALS_ROOM: usize = 34;

pub const EVENT_ROOM: usize = 11;

pub const EVENTS_ROOM: usize = EVENTS * EVENT_ROOM;

pub const FIRST_ROOM: usize = 22 + EVENTS_ROOM;

pub const LISTING_ROOM: usize = PLAN_ROOM + PLACES_ROOM + TOTALS_ROOM + FIRST_ROOM;

pub fn put_plan(out: &mut Output, events: u32, pairs: u32, free: u32)
    requires { out.old.at + plan_room ≤ length out.old.row.now }
    ensures written { Written out.old (plan_line events pairs free) out.new }
    ensures room { out.new.at ≤ out.old.at + plan_room }
{
    out.field(b"plan events ", events);
    out.field(b" pairs ", pairs);
    out.field(b" free ", free);
    out.word(b"\n");
}

pub fn put_totals(out: &mut Output, short: u32, total: u32)
    requires { out.old.at + totals_room ≤ length out.old.row.now }
    ensures written { Written out.old (totals_line short total) out.new }
    ensures room { out.new.at ≤ out.old.at + totals_room }
{
    out.field(b"short ", short);
    out.field(b" total ", total);
    out.word(b"\n");
}

pub fn put_refused(out: &mut Output, fault: u32)
    requires { out.old.at + refused_room ≤ length out.old.row.now }
    ensures { Written out.old (refused_line fault) out.new }
{
    out.field(b"refused ", fault);
    out.word(b"\n");
}
