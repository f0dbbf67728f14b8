// Where the bodies of a sheet start and how many items each has, read from its table of contents, and the faults of that table. Nothing here has a
// loop.
// That the table has 32 bytes is said here alone: whoever looks for an item goes by the layout.
// Numbers of 32 bits are cast to `usize`, which no `From` does.
#![tactic(auto)]

ghost use Rattle.std.specs.Prelude.{ℕ, ◌<◌, ◌≤◌, List, ◌≡◌, length, IfOk};
ghost use Rattle.sheet.specs.Table.{table_length, start, count};
ghost use Rattle.sheet.specs.Faults.{too_short, over_limit, wrong_end, layout_faults, first_fault};
ghost use Rattle.sheet.specs.Told.{tell, plain};
ghost use Rattle.sheet.specs.Answered.{told_by};
ghost use Rattle.layout.specs.Layout.{LayoutOf, LaidBy, FourBytes, WithinLimits};
ghost use Rattle.layout.specs.Starts.{start_fault, starts_fault};

use ids::{EVENTS, PAIRS, PLACES, TRANSITIONS};
use numbers::get32;
use sheet::Fault;

// The bytes of the table.
pub const TABLE: usize = 32;

// The bytes of a sheet with the most items of each kind.
pub const LONGEST: usize = TABLE + 4 * PLACES + 4 * PLACES * TRANSITIONS + 2 * EVENTS + 4 * PAIRS;

// How many items each body has, and where it starts.
// Fields by name, as the sheet's rules name them, and not two rows of four.
#[derive(Clone, Copy)]
pub struct Layout {
    pub places: usize,
    pub transitions: usize,
    pub events: usize,
    pub pairs: usize,
    pub places_at: usize,
    pub transitions_at: usize,
    pub events_at: usize,
    pub pairs_at: usize,
}

// The start of entry e's body.
// The two numbers of an entry differ in an offset; each has its own definition.
fn entry_start(s: &[u8], e: usize) -> usize
    requires { (e < 4) × (table_length ≤ length s.now) }
    ensures { (result ≡ start s.now e) × (result < 4294967296) }
{
    get32(s, 8 * e) as usize
}

// The item count of entry e.
fn entry_count(s: &[u8], e: usize) -> usize
    requires { (e < 4) × (table_length ≤ length s.now) }
    ensures { result ≡ count s.now e }
{
    get32(s, 8 * e + 4) as usize
}

// The layout that the table says.
pub fn layout_of(s: &[u8]) -> Layout
    requires { table_length ≤ length s.now }
    ensures { LayoutOf s.now result × FourBytes result }
{
    Layout {
        places: entry_count(s, 0),
        transitions: entry_count(s, 1),
        events: entry_count(s, 2),
        pairs: entry_count(s, 3),
        places_at: entry_start(s, 0),
        transitions_at: entry_start(s, 1),
        events_at: entry_start(s, 2),
        pairs_at: entry_start(s, 3),
    }
}

// 1: fewer bytes than the table has.
fn too_short(s: &[u8]) -> bool
    ensures { result ≡ too_short s.now }
{
    s.len() < TABLE
}

// 2: an item count above its limit.
fn over_limit(l: Layout) -> bool
    ensures { (s : List ℕ) → LayoutOf s l → result ≡ over_limit s }
{
    if l.places > PLACES {
        return true;
    }
    if l.transitions > TRANSITIONS {
        return true;
    }
    if l.events > EVENTS {
        return true;
    }
    l.pairs > PAIRS
}

// 14: a body starts late, after where it is due. 15: it starts early.
fn check_start(at: usize, due: usize) -> Result<(), Fault>
    ensures { told_by result ≡ start_fault at due }
{
    if at > due {
        return Err(Fault::StartsLate);
    }
    if at < due {
        return Err(Fault::StartsEarly);
    }
    Ok(())
}

// 14 and 15, decided at the first body whose start isn't the end of what precedes it.
fn check_starts(l: Layout) -> Result<(), Fault>
    requires { WithinLimits l × FourBytes l }
    ensures { (s : List ℕ) → LayoutOf s l → told_by result ≡ starts_fault s }
{
    check_start(l.places_at, TABLE)?;
    check_start(l.transitions_at, l.places_at + 4 * l.places)?;
    check_start(l.events_at, l.transitions_at + 4 * l.places * l.transitions)?;
    check_start(l.pairs_at, l.events_at + 2 * l.events)
}

// 4: the sheet doesn't end with its last body.
fn check_end(s: &[u8], l: Layout) -> Result<(), Fault>
    requires layout_of { LayoutOf s.now l }
    requires within_limits { WithinLimits l × FourBytes l }
    ensures { told_by result ≡ tell 4 (plain (wrong_end s.now)) }
{
    if s.len() != l.pairs_at + 4 * l.pairs {
        return Err(Fault::WrongEnd);
    }
    Ok(())
}

// The layout of a sheet, or the first of its faults: 1, 2, 14 or 15, and 4.
pub fn find_layout(s: &[u8]) -> Result<Layout, Fault>
    ensures fault { told_by result ≡ first_fault layout_faults s.now }
    ensures laid { IfOk result (LaidBy s.now) }
{
    if too_short(s) {
        return Err(Fault::TooShort);
    }
    let l = layout_of(s);
    if over_limit(l) {
        return Err(Fault::OverLimit);
    }
    check_starts(l)?;
    check_end(s, l)?;
    Ok(l)
}
