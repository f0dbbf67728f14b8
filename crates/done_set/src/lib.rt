// The marks of a done set in a lent row: where something is missing 1 for each event of the set, and 0 for every other.
#![tactic(auto)]

ghost use Rattle.std.specs.Prelude.{◌<◌, ◌≤◌, ◌≡◌, length};
ghost use Rattle.finite.specs.Filled.{Filled};
ghost use Rattle.ids.specs.Limits.{most_events};
ghost use Rattle.search.specs.Row.{members};
ghost use Rattle.done_set.specs.Mark.{mark_in};

use ids::{Event, WORDS};
use marks::is_marked;

// The mark of the event v, with m tokens missing: 1 if there are any and v is in the set, else 0.
fn done_mark(set: &[u32; WORDS], m: u32, v: Event) -> u8
    requires { v.0 < most_events }
    ensures { result ≡ mark_in m (members set.now) v.0 }
{
    u8::from(m > 0 && is_marked(set, 0, v.0))
}

// Marks the first n events, with m tokens missing.
pub fn write_marks(set: &[u32; WORDS], m: u32, marks: &mut [u8], n: usize)
    requires { (n ≤ most_events) × (n ≤ length marks.old) }
    ensures { Filled (mark_in m (members set.now)) n marks.old marks.new }
{
    // By number, since the number is the event.
    for v in 0..n {
        marks[v] = done_mark(set, m, Event(v));
    }
}
