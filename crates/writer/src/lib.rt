// A sheet written into a lent row of bytes, in parts: its table, a part of another sheet, a pair, each after what was written before.
// Numbers are cast to fewer bits, which loses nothing, as the check proves: `TryFrom` would need an answer for what can't come.
#![tactic(auto)]

ghost use Rattle.std.specs.Prelude.{◌+◌, ◌<◌, ◌≤◌, ◌≡◌, length};
ghost use Rattle.std.proofs.Math.Seq.{slice};
ghost use Rattle.finite.specs.Stands.{Bytes};
ghost use Rattle.ids.specs.Limits.{most_places, most_transitions, most_events, most_pairs};
ghost use Rattle.layout.specs.Layout.{FourBytes, WithinLimits};
ghost use Rattle.sheet.specs.Table.{table_length};
ghost use Rattle.text.specs.Put.{Put};
ghost use Rattle.writer.specs.Written.{layout_for, entry, table, pair_bytes};

use ids::Event;
use layout::{Layout, TABLE};
use text::put_word;

// An entry of the table: where a body starts and how many items it has, 4 bytes each.
fn put_entry(row: &mut [u8], at: usize, start: usize, count: usize) -> usize
    requires at_in_bounds { at + 8 ≤ length row.old }
    requires start_bound { (start < 4294967296) × (count < 4294967296) }
    ensures { Put row.old row.new at (entry start count) result × (result ≡ at + 8) }
{
    let half = put_word(row, at, &(start as u32).to_le_bytes());
    put_word(row, half, &(count as u32).to_le_bytes())
}

// The layout of a sheet that has so many items of each kind: each body starts where the one before ends.
pub fn lay_out(places: usize, transitions: usize, events: usize, pairs: usize) -> Layout
    requires places_le_most_places { (places ≤ most_places) × (transitions ≤ most_transitions) }
    requires events_le_most_events { (events ≤ most_events) × (pairs ≤ most_pairs) }
    ensures value { result ≡ layout_for places transitions events pairs }
    ensures within_limits { WithinLimits result × FourBytes result }
{
    let transitions_at = TABLE + 4 * places;
    let events_at = transitions_at + 4 * places * transitions;
    Layout {
        places,
        transitions,
        events,
        pairs,
        places_at: TABLE,
        transitions_at,
        events_at,
        pairs_at: events_at + 2 * events,
    }
}

// The table of contents, which says the layout.
pub fn put_table(row: &mut [u8], l: Layout) -> usize
    requires table_length_in_bounds { table_length ≤ length row.old }
    requires within_limits { WithinLimits l × FourBytes l }
    ensures { Put row.old row.new 0 (table l) result × (result ≡ table_length) }
{
    let a = put_entry(row, 0, l.places_at, l.places);
    let b = put_entry(row, a, l.transitions_at, l.transitions);
    let c = put_entry(row, b, l.events_at, l.events);
    put_entry(row, c, l.pairs_at, l.pairs)
}

// The bytes of a sheet from one position up to another, as they are. That each of them is a byte is told, since a caller knows its sheet only as
// numbers.
pub fn put_part(row: &mut [u8], at: usize, s: &[u8], from: usize, to: usize) -> usize
    requires { (from ≤ to) × (to ≤ length s.now) × (at + to ≤ length row.old + from) }
    ensures put { Put row.old row.new at (slice from to s.now) result × (result + from ≡ at + to) }
    ensures bytes { Bytes (slice from to s.now) }
{
    put_word(row, at, &s[from..to])
}

// A pair: its earlier event and its later one, 2 bytes each.
pub fn put_pair(row: &mut [u8], at: usize, a: Event, b: Event) -> usize
    requires at_in_bounds { at + 4 ≤ length row.old }
    requires a_lt_most_events { (a.0 < most_events) × (b.0 < most_events) }
    ensures { Put row.old row.new at (pair_bytes a.0 b.0) result × (result ≡ at + 4) }
{
    let half = put_word(row, at, &(a.0 as u16).to_le_bytes());
    put_word(row, half, &(b.0 as u16).to_le_bytes())
}
