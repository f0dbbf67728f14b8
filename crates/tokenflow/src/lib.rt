// The tokenflow at one place, in rows that a caller lends: tokens drawn from a giver for a taker, and given back.
#![tactic(auto)]

ghost use Rattle.std.specs.Prelude.{◌+◌, ◌*◌, ◌<◌, ◌≤◌, ◌≡◌, T, length, get_or};
ghost use Rattle.ids.specs.Limits.{most_events};
ghost use Rattle.marks.specs.Marks.{marked};
ghost use Rattle.tokenflow.specs.Rows.{fed_by, Exact, Raised, Lowered, MayDraw, MayGiveBack, Drawn};
ghost use Rattle.tokenflow.specs.Lent.{rows_in};

use ids::{EVENTS, Event, ROWS};

// The rows lent for one place: tokens from each giver to each taker, and marks where some flow, what each giver has free, and what each
// taker lacks.
// Contracts speak of the rows that it refers to and of which they are, so who lends it knows of rows of its own.
#[derive(Drop)]
pub struct Flow<'a> {
    pub amount: &'a mut [u32],
    pub fed: &'a mut [u32; ROWS],
    pub free: &'a mut [u32; EVENTS],
    pub share: &'a mut [u32; EVENTS],
}

// k tokens more from u to w. This and what follows take the rows that they change, so that their clauses need not say that the others stay.
fn raise(amount: &mut [u32], fed: &mut [u32; ROWS], u: Event, w: Event, k: u32)
    requires u_lt_most_events { (u.0 < most_events) × (w.0 < most_events) }
    requires w_in_bounds { u.0 * most_events + w.0 < length amount.old }
    requires k_bound { fed_by amount.old fed.old u.0 w.0 + k < 4294967296 }
    ensures { Raised amount.old fed.old amount.new fed.new u.0 w.0 k }
{
    let at = u.0 * EVENTS + w.0;
    if marks::is_marked(fed, u.0, w.0) {
        amount[at] += k;
    } else {
        amount[at] = k;
        marks::mark(fed, u.0, w.0);
    }
}

// k tokens fewer from u to w, who gets that many at least. The mark goes with the last of them.
fn lower(amount: &mut [u32], fed: &mut [u32; ROWS], u: Event, w: Event, k: u32)
    requires u_lt_most_events { (u.0 < most_events) × (w.0 < most_events) }
    requires w_in_bounds { u.0 * most_events + w.0 < length amount.old }
    requires t { T (marked fed.old u.0 w.0) × (k ≤ get_or amount.old (u.0 * most_events + w.0) 0) }
    ensures raised { Raised amount.new fed.new amount.old fed.old u.0 w.0 k }
    ensures exact { Exact amount.old fed.old → Exact amount.new fed.new }
{
    let at = u.0 * EVENTS + w.0;
    let have = amount[at];
    if have == k {
        marks::unmark(fed, u.0, w.0);
    } else {
        amount[at] = have - k;
    }
}

// What a row has for v, k more. It stays a function: with `+=` in `give_back` the proof didn't close, as no fact there tells a row's length.
fn refund(row: &mut [u32], v: Event, k: u32)
    requires v_in_bounds { v.0 < length row.old }
    requires k_bound { get_or row.old v.0 0 + k < 4294967296 }
    ensures { Lowered row.new row.old v.0 k }
{
    row[v.0] += k;
}

impl<'a> Flow<'a> {
    // What the giver u has free.
    pub fn free(&self, u: Event) -> u32
        requires u_lt_most_events { u.0 < most_events }
        ensures { result ≡ get_or self.now.free.now u.0 0 }
    {
        let row = &*self.free;
        row[u.0]
    }

    // What the taker w lacks.
    pub fn lacks(&self, w: Event) -> u32
        requires w_lt_most_events { w.0 < most_events }
        ensures { result ≡ get_or self.now.share.now w.0 0 }
    {
        let row = &*self.share;
        row[w.0]
    }

    // What stands for u and w: the tokens that u feeds to w, where it feeds w.
    pub fn amount(&self, u: Event, w: Event) -> u32
        requires w_in_bounds { u.0 * most_events + w.0 < length self.now.amount.now }
        requires u_lt_most_events { (u.0 < most_events) × (w.0 < most_events) }
        ensures { result ≡ get_or self.now.amount.now (u.0 * most_events + w.0) 0 }
    {
        let row = &*self.amount;
        row[u.0 * EVENTS + w.0]
    }

    // Whether u feeds w.
    pub fn feeds(&self, u: Event, w: Event) -> bool
        requires u_lt_most_events { (u.0 < most_events) × (w.0 < most_events) }
        ensures { result ≡ marked self.now.fed.now u.0 w.0 }
    {
        marks::is_marked(self.fed, u.0, w.0)
    }

    // Draws k tokens from the giver u for the taker w.
    pub fn draw(&mut self, u: Event, w: Event, k: u32)
        requires { MayDraw (rows_in self.old) u.0 w.0 k }
        ensures { Drawn (rows_in self.old) (rows_in self.new) u.0 w.0 k }
    {
        raise(self.amount, self.fed, u, w, k);
        self.free[u.0] -= k;
        self.share[w.0] -= k;
    }

    // Gives back k of the tokens that u feeds to w.
    pub fn give_back(&mut self, u: Event, w: Event, k: u32)
        requires { MayGiveBack (rows_in self.old) u.0 w.0 k }
        ensures drawn { Drawn (rows_in self.new) (rows_in self.old) u.0 w.0 k }
        ensures exact { Exact self.old.amount.now self.old.fed.now → Exact self.new.amount.now self.new.fed.now }
    {
        lower(self.amount, self.fed, u, w, k);
        refund(self.free, u, k);
        refund(self.share, w, k);
    }
}
