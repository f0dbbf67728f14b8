// The numbers of places, transitions and events, which cannot be mixed up; how many of each a sheet may have; and the sizes of rows made
// of that.
#![tactic(auto)]

// Exported calls take it, and C passes it as a `size_t`.
#[repr(C)]
#[derive(Clone, Copy, PartialEq, Eq)]
pub struct Place(pub usize);

#[derive(Clone, Copy, PartialEq, Eq)]
pub struct Transition(pub usize);

#[derive(Clone, Copy, PartialEq, Eq)]
pub struct Event(pub usize);

// The most items of each entry of a sheet.
pub const PLACES: usize = 64;

pub const TRANSITIONS: usize = 64;

pub const EVENTS: usize = 256;

pub const PAIRS: usize = 1024;

// The words of 32 bits in a row of marks, one mark for each event, and those of such a row for each event.
pub const WORDS: usize = EVENTS / 32;

pub const ROWS: usize = EVENTS * WORDS;

// A number for each two events.
pub const SQUARE: usize = EVENTS * EVENTS;

// The most events of a small and of a middling plan, and a number for each event of such a plan and any event.
pub const SMALL: usize = 16;

pub const MIDDLE: usize = 64;

pub const SMALL_SQUARE: usize = SMALL * EVENTS;

pub const MIDDLE_SQUARE: usize = MIDDLE * EVENTS;

// A number for each pair, then one for each event.
pub const FLOW: usize = PAIRS + EVENTS;
