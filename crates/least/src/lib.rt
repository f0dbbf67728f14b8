// A place settled from rows, without a sheet: from what each event gives and takes there, and what is before what, comes a tokenflow with
// the least lack. So another place, which no sheet has, can be settled by the same function.
#![tactic(auto)]

ghost use Rattle.std.specs.Prelude.{◌≤◌, ◌≡◌};
ghost use Rattle.finite.specs.Sum.{sum_of};
ghost use Rattle.ids.specs.Limits.{most_events};
ghost use Rattle.least.specs.PlaceRows.{RowsFor, Small, SomePlace, Unfed, UnfedFrom};
ghost use Rattle.least.specs.Settled.{Settles};
ghost use Rattle.tokenflow.specs.Lent.{rows_in};

use drawing::draw_all;
use ids::{EVENTS, ROWS, WORDS};
use settle::settle;
use tokenflow::Flow;

// What all takers lack: the sum of the first n shares.
// A line over the library's sum, with the bound that holds here; `settle` and `flow_sums` have theirs.
fn total(flow: &Flow, n: usize) -> u32
    requires n_le_most_events { n ≤ most_events }
    requires small { Small flow.now.share.now n }
    ensures { result ≡ sum_of flow.now.share.now n }
{
    let share = &*flow.share;
    share[..n].iter().sum()
}

// Clears the marks of the givers below n, so that nobody is fed.
fn clear(fed: &mut [u32; ROWS], n: usize)
    requires n_le_most_events { n ≤ most_events }
    requires unfed { UnfedFrom n fed.old }
    ensures { Unfed fed.new }
{
    fed[..n * WORDS].fill(0);
}

// Settles a place whose gives stand in `flow.free` and whose takes stand in `flow.share`. Returns what the takers lack at last: the least
// opening count, or less than it takes to pass `enough`, at which it may stop. So 0 asks for the least opening count itself, and the opening
// count asks only for what is missing. All events are marked as sources at first; those that have nothing free are unmarked when they are met.
pub fn settle_rows(
    pred: &[u32; ROWS],
    ranked: &[usize; EVENTS],
    flow: &mut Flow,
    givers: &mut [u32; WORDS],
    enough: u32,
    n: usize,
) -> u32
    requires rows_for { RowsFor n flow.old.amount.now flow.old.fed.now }
    requires some_place { SomePlace n pred.now flow.old.free.now flow.old.share.now }
    ensures settles { Settles n pred.now (rows_in flow.old) (rows_in flow.new) givers.new enough result }
    ensures same_rows { (rows_in flow.new).names ≡ (rows_in flow.old).names }
{
    let mut sources = [u32::MAX; WORDS];
    clear(flow.fed, n);
    draw_all(pred, ranked, flow, &mut sources, n);
    settle(pred, flow, givers, enough, n);
    total(flow, n)
}
