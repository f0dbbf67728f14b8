// Levels of a search, and rows of marks by level. All of it only says where to look, so contracts speak of bounds alone.
#![tactic(auto)]

ghost use Rattle.std.specs.Prelude.{◌*◌, ◌<◌, ◌≤◌, ◌≡◌, replicate};
ghost use Rattle.ids.specs.Limits.{most_events, row_words};

use ids::{EVENTS, Event, ROWS, WORDS};
use search::Trail;

// The words of two rows of marks for each level.
pub const SETS: usize = 2 * ROWS;

// The last level that has rows.
const LAST: usize = EVENTS - 1;

// The level of each place of the queue, and two rows of marks by level: row L marks givers of level L with tokens free, and row 256 + L
// givers met at level L and not yet visited.
// One row of fixed size for all rows of marks: nothing is on the heap.
#[derive(Drop)]
pub struct Levels {
    pub of: [usize; EVENTS],
    pub sets: [u32; SETS],
}

impl Levels {
    // Of no queue yet.
    pub fn blank() -> Levels
        ensures of { result.of ≡ replicate most_events 0 }
        ensures sets { result.sets ≡ replicate (2 * (most_events * row_words)) 0 }
    {
        Levels {
            of: [0; EVENTS],
            sets: [0; SETS],
        }
    }

    // The level of the taker at a place of the queue: 0 if its origin is no event, as where a search starts, else one more than that of
    // the place by way of which its origin was met.
    fn level_of(&self, trail: &Trail, at: usize) -> usize
        requires { at < most_events }
        ensures { result < most_events }
    {
        let u = trail.origin[at];
        if u >= EVENTS {
            return 0;
        }
        let from = trail.via[u];
        if from >= EVENTS {
            return 0;
        }
        let level = self.of[from];
        if level >= LAST {
            return LAST;
        }
        level + 1
    }

    // Sets the level of each place of the queue. Returns that of the last, which is the deepest, since a search goes from level to level.
    pub fn set(&mut self, trail: &Trail, tail: usize) -> usize
        requires { tail ≤ most_events }
        ensures bound { result < most_events }
        ensures sets_kept { self.new.sets ≡ self.old.sets }
    {
        let mut level: usize = 0;
        for at in 0..tail {
            level = self.level_of(trail, at);
            self.of[at] = level;
        }
        level
    }

    // Marks the giver u in its level's row if it has tokens free.
    pub fn mark_source(&mut self, free: &[u32; EVENTS], level: usize, u: Event)
        requires { (level < most_events) × (u.0 < most_events) }
        ensures { self.new.of ≡ self.old.of }
    {
        if free[u.0] > 0 {
            marks::mark(&mut self.sets, level, u.0);
        }
    }

    // Removes the mark of the giver u from its level's row if it has no tokens free.
    pub fn unmark_spent(&mut self, free: &[u32; EVENTS], level: usize, u: Event)
        requires { (level < most_events) × (u.0 < most_events) }
        ensures { self.new.of ≡ self.old.of }
    {
        if free[u.0] == 0 {
            marks::unmark(&mut self.sets, level, u.0);
        }
    }

    // Marks the giver u, if it was met by way of a place of the queue, in both rows of its level.
    fn mark_giver(&mut self, trail: &Trail, free: &[u32; EVENTS], u: Event)
        requires { u.0 < most_events }
        ensures { self.new.of ≡ self.old.of }
    {
        let at = trail.via[u.0];
        if at >= EVENTS {
            return;
        }
        let level = self.of[at];
        if level >= EVENTS {
            return;
        }
        marks::mark(&mut self.sets, EVENTS + level, u.0);
        self.mark_source(free, level, u);
    }

    // Marks the givers that were met, by levels.
    pub fn mark_givers(&mut self, trail: &Trail, free: &[u32; EVENTS], n: usize)
        requires { n ≤ most_events }
        ensures { self.new.of ≡ self.old.of }
    {
        for u in 0..n {
            self.mark_giver(trail, free, Event(u));
        }
    }

    // The row of the givers of level 0 with tokens free, which stands first.
    pub fn lowest(&self) -> [u32; WORDS] {
        let mut row = [0u32; WORDS];
        row.copy_from_slice(&self.sets[..WORDS]);
        row
    }

    // Marks the taker at a place of the queue if a giver of a level with tokens free is before it.
    fn mark_taker(
        &self,
        pred: &[u32; ROWS],
        trail: &Trail,
        within: &mut [u32; WORDS],
        level: usize,
        at: usize,
    )
        requires { (level < most_events) × (at < most_events) }
    {
        let w = Event(trail.queue[at]);
        if w.0 < EVENTS && marks::meets(pred, w.0, &self.sets, level) {
            marks::mark(within, 0, w.0);
        }
    }

    // Marks the takers of a level before which is a giver of it with tokens free, back from a place of the queue. Returns the first place
    // of the level.
    pub fn mark_takers(
        &self,
        pred: &[u32; ROWS],
        trail: &Trail,
        within: &mut [u32; WORDS],
        level: usize,
        end: usize,
    ) -> usize
        requires { (level < most_events) × (end ≤ most_events) }
        ensures { result ≤ most_events }
    {
        for at in (0..end).rev() {
            if self.of[at] < level {
                return at + 1;
            }
            self.mark_taker(pred, trail, within, level, at);
        }
        0
    }
}
