// Pushes free tokens down the levels of a search: givers of each level feed takers in place of givers one level nearer to the takers
// that lack tokens, and these draw in the end. Levels only say where to look; whatever they are, every move is a draw or an exchange.
#![tactic(auto)]

ghost use Rattle.std.specs.Prelude.{◌+◌, ◌<◌, ◌≤◌, ◌≡◌, T};
ghost use Rattle.ids.specs.Limits.{most_events};
ghost use Rattle.marks.specs.Marks.{marked};
ghost use Rattle.tokenflow.specs.Flowing.{Flowing};
ghost use Rattle.drawing.specs.Moves.{Moved, Order};
ghost use Rattle.tokenflow.specs.Lent.{rows_in};

use drawing::draw_at;
use exchange::exchange;
use ids::{EVENTS, Event, ROWS, WORDS};
use last_mark::{last_common, last_only};
use levels::Levels;
use search::Trail;
use tokenflow::Flow;

// More than givers and takers there are.
const TURNS: usize = 3 * EVENTS;

// A giver of a level with tokens free feeds the taker w in place of v. If none is before w, w loses its mark in `within`.
// `within` stays beside the levels: it is of one level, and made anew for each.
fn pull_by(
    pred: &[u32; ROWS],
    levels: &mut Levels,
    within: &mut [u32; WORDS],
    flow: &mut Flow,
    v: Event,
    w: Event,
    level: usize,
    n: usize,
)
    requires holds { Flowing n pred.now (rows_in flow.old) }
    requires order { Order n pred.now }
    requires v_lt_n { (v.0 < n) × (w.0 < n) × T (marked flow.old.fed.now v.0 w.0) }
    requires level_lt_most_events { level < most_events }
    ensures moves { Moved n pred.now (rows_in flow.old) (rows_in flow.new) }
    ensures of_kept { levels.new.of ≡ levels.old.of }
{
    let Some(u) = last_common(pred, w.0, &levels.sets, level) else {
        marks::unmark(within, 0, w.0);
        return;
    };
    exchange(pred, flow, Event(u), w, v, n);
    levels.unmark_spent(flow.free, level, Event(u));
}

// Pulls tokens to v by way of a taker marked in `within` that it feeds. Returns whether there was one.
fn pull_once(
    pred: &[u32; ROWS],
    levels: &mut Levels,
    within: &mut [u32; WORDS],
    flow: &mut Flow,
    v: Event,
    level: usize,
    n: usize,
) -> bool
    requires holds { Flowing n pred.now (rows_in flow.old) }
    requires order { Order n pred.now }
    requires v_lt_most_events { (v.0 < most_events) × (level < most_events) }
    ensures moves { Moved n pred.now (rows_in flow.old) (rows_in flow.new) }
    ensures of_kept { levels.new.of ≡ levels.old.of }
{
    let Some(w) = last_common(flow.fed, v.0, within, 0) else {
        return false;
    };
    pull_by(pred, levels, within, flow, v, Event(w), level, n);
    true
}

// Pulls tokens to v until it feeds no taker that another could feed. Each turn uses up a giver or a taker.
// A step as often as there may be turns; `drawing::draw_for` says why each loop stands by itself.
fn pull(
    pred: &[u32; ROWS],
    levels: &mut Levels,
    within: &mut [u32; WORDS],
    flow: &mut Flow,
    v: Event,
    level: usize,
    n: usize,
)
    requires holds { Flowing n pred.now (rows_in flow.old) }
    requires order { Order n pred.now }
    requires v_lt_most_events { (v.0 < most_events) × (level < most_events) }
    ensures moves { Moved n pred.now (rows_in flow.old) (rows_in flow.new) }
    ensures of_kept { levels.new.of ≡ levels.old.of }
{
    for _ in 0..TURNS {
        if !pull_once(pred, levels, within, flow, v, level, n) {
            return;
        }
    }
}

// Visits a giver met at the level `lower`: pulls tokens to it from givers of the next level. Returns whether there was one.
fn pull_next(
    pred: &[u32; ROWS],
    levels: &mut Levels,
    within: &mut [u32; WORDS],
    flow: &mut Flow,
    lower: usize,
    n: usize,
) -> bool
    requires holds { Flowing n pred.now (rows_in flow.old) }
    requires order { Order n pred.now }
    requires lower_bound { lower + 1 < most_events }
    ensures moves { Moved n pred.now (rows_in flow.old) (rows_in flow.new) }
    ensures of_kept { levels.new.of ≡ levels.old.of }
{
    let row = EVENTS + lower;
    let Some(v) = last_only(&levels.sets, row, &[0; WORDS], 0) else {
        return false;
    };
    marks::unmark(&mut levels.sets, row, v);
    pull(pred, levels, within, flow, Event(v), lower + 1, n);
    levels.mark_source(flow.free, lower, Event(v));
    true
}

// Visits each giver met at the level `lower`, by way of the takers marked in `within`.
fn pull_all(
    pred: &[u32; ROWS],
    levels: &mut Levels,
    within: &mut [u32; WORDS],
    flow: &mut Flow,
    lower: usize,
    n: usize,
)
    requires holds { Flowing n pred.now (rows_in flow.old) }
    requires order { Order n pred.now }
    requires lower_bound { lower + 1 < most_events }
    ensures moves { Moved n pred.now (rows_in flow.old) (rows_in flow.new) }
    ensures of_kept { levels.new.of ≡ levels.old.of }
{
    for _ in 0..n {
        if !pull_next(pred, levels, within, flow, lower, n) {
            return;
        }
    }
}

// Pushes tokens from the level above `lower` to it. Returns the first place of the level above in the queue.
fn push_level(
    pred: &[u32; ROWS],
    trail: &Trail,
    levels: &mut Levels,
    flow: &mut Flow,
    lower: usize,
    end: usize,
    n: usize,
) -> usize
    requires holds { Flowing n pred.now (rows_in flow.old) }
    requires order { Order n pred.now }
    requires lower_bound { (lower + 1 < most_events) × (end ≤ most_events) }
    ensures moves { Moved n pred.now (rows_in flow.old) (rows_in flow.new) }
    ensures of_kept { levels.new.of ≡ levels.old.of }
    ensures upper_bound { result ≤ most_events }
{
    let mut within = [0u32; WORDS];
    let start = levels.mark_takers(pred, trail, &mut within, lower + 1, end);
    if within.iter().any(|word| *word != 0) {
        pull_all(pred, levels, &mut within, flow, lower, n);
    }
    start
}

// Draws for the takers of level 0, which stand before the place `end` of the queue.
fn draw_lowest(
    pred: &[u32; ROWS],
    trail: &Trail,
    levels: &Levels,
    flow: &mut Flow,
    end: usize,
    n: usize,
)
    requires holds { Flowing n pred.now (rows_in flow.old) }
    requires order { Order n pred.now }
    requires end_le_most_events { end ≤ most_events }
    ensures { Moved n pred.now (rows_in flow.old) (rows_in flow.new) }
{
    let mut sources = levels.lowest();
    for at in 0..end {
        draw_at(pred, &trail.queue, flow, &mut sources, at, n);
    }
}

// Pushes tokens down from the deepest level to level 0, and draws them there.
fn push_down(
    pred: &[u32; ROWS],
    trail: &Trail,
    levels: &mut Levels,
    flow: &mut Flow,
    deepest: usize,
    tail: usize,
    n: usize,
)
    requires holds { Flowing n pred.now (rows_in flow.old) }
    requires order { Order n pred.now }
    requires deepest_lt_most_events { (deepest < most_events) × (tail ≤ most_events) }
    ensures moves { Moved n pred.now (rows_in flow.old) (rows_in flow.new) }
    ensures of_kept { levels.new.of ≡ levels.old.of }
{
    let mut end = tail;
    for level in (0..deepest).rev() {
        end = push_level(pred, trail, levels, flow, level, end, n);
    }
    draw_lowest(pred, trail, levels, flow, end, n);
}

// Pushes what givers have free down the levels of a search, and draws it for the takers that lack tokens. The origin is 256 where the
// search started, and the place of a giver that it didn't meet is 256.
pub fn push(pred: &[u32; ROWS], trail: &Trail, flow: &mut Flow, tail: usize, n: usize)
    requires holds { Flowing n pred.now (rows_in flow.old) }
    requires order { Order n pred.now }
    requires tail_le_most_events { tail ≤ most_events }
    ensures { Moved n pred.now (rows_in flow.old) (rows_in flow.new) }
{
    let mut levels = Levels::blank();
    let deepest = levels.set(trail, tail);
    levels.mark_givers(trail, flow.free, n);
    push_down(pred, trail, &mut levels, flow, deepest, tail, n);
}
