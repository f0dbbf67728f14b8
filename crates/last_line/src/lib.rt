// The last line of a listing: the first short place and its done events, or that the plan runs.
// Numbers are cast to fewer bits, which loses nothing, as the check proves: `TryFrom` would need an answer for what can't come.
#![tactic(auto)]

ghost use Rattle.std.specs.Prelude.{◌+◌, ◌<◌, ◌≤◌, length};
ghost use Rattle.ids.specs.Limits.{most_places, most_events};
ghost use Rattle.search.specs.Row.{members};
ghost use Rattle.summary.specs.Summary.{verdict_number};
ghost use Rattle.text.specs.Output.{Written};
ghost use Rattle.lines.specs.Room.{event_room, events_room, first_room};
ghost use Rattle.finite.specs.Each.{each};
ghost use Rattle.lines.specs.Listing.{event_in, done_events, first_line, last_line};

use ids::{Event, Place, WORDS};
use marks::is_marked;
use summary::Verdict;
use text::Output;

// An event that is done, after a space.
fn put_event(out: &mut Output, done: &[u32; WORDS], v: Event)
    requires { (v.0 < most_events) × (out.old.at + event_room ≤ length out.old.row.now) }
    ensures written { Written out.old (event_in (members done.now) v.0) out.new }
    ensures room { out.new.at ≤ out.old.at + event_room }
{
    if is_marked(done, 0, v.0) {
        out.field(b" ", v.0 as u32);
    }
}

// The events that are done, each after a space.
fn put_events(out: &mut Output, done: &[u32; WORDS], n: usize)
    requires { (n ≤ most_events) × (out.old.at + events_room ≤ length out.old.row.now) }
    ensures written { Written out.old (each n (event_in (members done.now))) out.new }
    ensures room { out.new.at ≤ out.old.at + events_room }
{
    for v in 0..n {
        put_event(out, done, Event(v));
    }
}

// The events that are done, or `none`.
fn put_done(out: &mut Output, done: &[u32; WORDS], n: usize)
    requires { (n ≤ most_events) × (out.old.at + events_room ≤ length out.old.row.now) }
    ensures written { Written out.old (done_events n (members done.now)) out.new }
    ensures room { out.new.at ≤ out.old.at + events_room }
{
    let start = out.at;
    put_events(out, done, n);
    if out.at == start {
        out.word(b" none");
    }
}

// The first short place and its done events.
fn put_first(out: &mut Output, p: Place, done: &[u32; WORDS], n: usize)
    requires { (p.0 < most_places) × (n ≤ most_events) × (out.old.at + first_room ≤ length out.old.row.now) }
    ensures { Written out.old (first_line p.0 n (members done.now)) out.new }
{
    out.field(b"first ", p.0 as u32);
    out.word(b" done");
    put_done(out, done, n);
    out.word(b"\n");
}

// The last line, by the verdict and the done set of the first short place.
pub fn put_verdict(out: &mut Output, v: Verdict, done: &[u32; WORDS], n: usize)
    requires v_bound { verdict_number v < 1000 + most_places }
    requires n_le_most_events { (n ≤ most_events) × (out.old.at + first_room ≤ length out.old.row.now) }
    ensures { Written out.old (last_line v n (members done.now)) out.new }
{
    match v {
        Verdict::Runs => out.word(b"runs\n"),
        Verdict::Short(p, _m) => put_first(out, p, done, n),
    }
}
