// The lines that `mend` says on standard error.
ghost use Rattle.std.specs.Prelude.{◌+◌, ◌≤◌, ◌≡◌, length};

use ids::Event;
use reasons::Reason;
use sheet::Fault;
use text::Output;

// A number of 2 bytes, or of a pair: it always fits.
fn number(n: usize) -> u32 {
    u32::try_from(n).unwrap_or(u32::MAX)
}

// Why a pair was dropped.
fn put_reason(out: &mut Output, reason: Reason)
    requires { out.old.at + 40 ≤ length out.old.row.now }
    ensures room { (out.new.at ≤ out.old.at + 40) × (length out.new.row.now ≡ length out.old.row.now) }
    ensures same { out.new.row.ghost_name ≡ out.old.row.ghost_name }
{
    match reason {
        Reason::NoEvent => out.word(b"it names no event\n"),
        Reason::OneEvent => out.word(b"it is of an event with itself\n"),
        Reason::Repeat => out.word(b"it repeats an earlier pair\n"),
    }
}

// Pair i, from event a to event b, and why it was dropped.
pub fn put_dropped(out: &mut Output, i: usize, a: Event, b: Event, reason: Reason)
    requires { out.old.at + 100 ≤ length out.old.row.now }
    ensures room { (out.new.at ≤ length out.new.row.now) × (length out.new.row.now ≡ length out.old.row.now) }
    ensures same { out.new.row.ghost_name ≡ out.old.row.ghost_name }
{
    out.field(b"mend: pair ", number(i));
    out.field(b" (", number(a.0));
    out.field(b", ", number(b.0));
    out.word(b") dropped: ");
    put_reason(out, reason);
}

// The fault of a sheet that is refused, and its item for a fault that has one: 5, 6 or 7.
pub fn put_refused(out: &mut Output, fault: Fault)
    requires { out.old.at + 100 ≤ length out.old.row.now }
    ensures room { (out.new.at ≤ length out.new.row.now) × (length out.new.row.now ≡ length out.old.row.now) }
    ensures same { out.new.row.ghost_name ≡ out.old.row.ghost_name }
{
    out.field(b"mend: refused ", fault.number());
    match fault {
        Fault::OverOpening(item) | Fault::OverWeight(item) | Fault::NoTransition(item) => out.field(
            b" item ", item,
        ),
        _ => {}
    }
    out.word(b"\n");
}
