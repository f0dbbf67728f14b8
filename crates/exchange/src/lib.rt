// Exchanges of givers: one feeds a taker in place of another, along the trail of a search, until a taker that lacks tokens draws some.
#![tactic(auto)]

ghost use Rattle.std.specs.Prelude.{◌<◌, ◌≤◌, T};
ghost use Rattle.ids.specs.Limits.{most_events};
ghost use Rattle.marks.specs.Marks.{marked};
ghost use Rattle.last_mark.specs.Found.{Tells};
ghost use Rattle.tokenflow.specs.Flowing.{Flowing};
ghost use Rattle.drawing.specs.Moves.{Moved};
ghost use Rattle.exchange.specs.Exchange.{Exchanged};
ghost use Rattle.exchange.specs.Walk.{trail_rows, TakerPlace, NextGiver, TellsGiver, Stepped, Walked};
ghost use Rattle.tokenflow.specs.Lent.{rows_in};

use drawing::draw_most;
use ids::{Event, ROWS};
use search::Trail;
use tokenflow::Flow;

// u feeds w in place of v, by all the tokens that u has free and v feeds. Returns how many.
pub fn exchange(pred: &[u32; ROWS], flow: &mut Flow, u: Event, w: Event, v: Event, n: usize) -> u32
    requires holds { Flowing n pred.now (rows_in flow.old) }
    requires u_lt_n { (u.0 < n) × (w.0 < n) × (v.0 < n) }
    requires t { T (marked pred.now w.0 u.0) × T (marked flow.old.fed.now v.0 w.0) }
    ensures { Exchanged n pred.now (rows_in flow.old) (rows_in flow.new) u.0 w.0 v.0 result }
{
    let k = flow.free(u).min(flow.amount(v, w));
    if k > 0 {
        flow.give_back(v, w, k);
        flow.draw(u, w, k);
    }
    k
}

// The place in the queue by way of which the giver u was met, if an event stands there that u is before.
fn taker_place(pred: &[u32; ROWS], trail: &Trail, u: Event, n: usize) -> Option<usize>
    requires { (u.0 < n) × (n ≤ most_events) }
    ensures { Tells (TakerPlace n pred.now trail.now.queue trail.now.via u.0) result }
{
    let at = trail.via[u.0];
    let w = *trail.queue.get(at)?;
    if w < n && marks::is_marked(pred, w, u.0) {
        Some(at)
    } else {
        None
    }
}

// The origin of the place `at`, if it feeds the taker w there and was met by way of an earlier place.
fn next_giver(trail: &Trail, flow: &Flow, at: usize, w: Event, n: usize) -> Option<Event>
    requires { (at < most_events) × (w.0 < n) × (n ≤ most_events) }
    ensures { TellsGiver (NextGiver n trail.now.origin trail.now.via flow.now.fed.now at w.0) result }
{
    let v = Event(trail.origin[at]);
    if v.0 < n && trail.via[v.0] < at && flow.feeds(v, w) {
        Some(v)
    } else {
        None
    }
}

// What a step of a walk comes to.
// It has three cases, so it is neither an `Option` nor a `Result`.
#[derive(Clone, Copy)]
pub enum Step {
    Drew,
    Stuck,
    On(Event),
}

// One step of a walk from the giver u.
fn walk_step(pred: &[u32; ROWS], trail: &Trail, flow: &mut Flow, u: Event, n: usize) -> Step
    requires holds { Flowing n pred.now (rows_in flow.old) }
    requires u_lt_n { u.0 < n }
    ensures moves { Moved n pred.now (rows_in flow.old) (rows_in flow.new) }
    ensures stepped { Stepped n pred.now (trail_rows trail.now.queue trail.now.origin trail.now.via) (rows_in flow.old) (rows_in flow.new) u.0 result }
{
    if flow.free(u) == 0 {
        return Step::Stuck;
    }
    let Some(at) = taker_place(pred, trail, u, n) else {
        return Step::Stuck;
    };
    let w = Event(trail.queue[at]);
    if flow.lacks(w) > 0 {
        draw_most(pred, flow, u, w, n);
        return Step::Drew;
    }
    let Some(v) = next_giver(trail, flow, at, w, n) else {
        return Step::Stuck;
    };
    exchange(pred, flow, u, w, v, n);
    Step::On(v)
}

// Walks from the giver u along the trail until a taker that lacks tokens draws some. Returns whether one did.
pub fn walk(pred: &[u32; ROWS], trail: &Trail, flow: &mut Flow, u: Event, n: usize) -> bool
    requires holds { Flowing n pred.now (rows_in flow.old) }
    requires u_lt_n { u.0 < n }
    ensures moves { Moved n pred.now (rows_in flow.old) (rows_in flow.new) }
    ensures walked { Walked n pred.now (trail_rows trail.now.queue trail.now.origin trail.now.via) (rows_in flow.old) (rows_in flow.new) u.0 result }
{
    let mut giver = u;
    loop {
        match walk_step(pred, trail, flow, giver, n) {
            Step::Drew => {
                return true;
            }
            Step::Stuck => {
                return false;
            }
            Step::On(v) => {
                giver = v;
            }
        }
    }
}
