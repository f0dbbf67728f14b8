// A tokenflow on "before", folded onto the skeleton pairs: the compact tokenflow (003, theorem 2) in a lent row.
// No sheet is read here. A plan stands in the contracts alone: some plan has the rows that are lent, and what is promised holds of
// every plan that has them.
#![tactic(auto)]

ghost use Rattle.std.specs.Prelude.{◌+◌, ◌*◌, ◌<◌, ◌≤◌, ◌≡◌, length, get_or};
ghost use Rattle.ids.specs.Limits.{most_events};
ghost use Rattle.fold.specs.Promises.{MayStep, SteppedBack, MayTrace, Traced, Spacious, MayFold, AllFolded, MayFoldGiver, GiverFolded};
ghost use Rattle.fold.specs.Written.{raised_by, Zeros, SharesFrom};

use filling::write_shares;
use ids::{Event, ROWS};
use last_mark::last_common;
use marks::is_marked;
use skeleton::{Skeleton, pair_number};
use tokenflow::Flow;

// One skeleton pair back from `cur` toward u, which is before it.
fn step_back(succ: &[u32; ROWS], skel: &[u32; ROWS], u: Event, cur: Event) -> Event
    requires u_lt_most_events { (u.0 < most_events) × (cur.0 < most_events) }
    requires may_step { MayStep succ.now skel.now u.0 cur.0 }
    ensures result_lt_most_events { result.0 < most_events }
    ensures stepped_back { SteppedBack succ.now skel.now u.0 cur.0 result.0 }
{
    if is_marked(skel, cur.0, u.0) {
        return u;
    }
    match last_common(skel, cur.0, succ, u.0) {
        Some(v) => Event(v),
        None => u,
    }
}

// Puts k more on pair i.
// A function of its own, as `tokenflow::refund`: its clause says what the row has then.
fn carry(row: &mut [u32], i: usize, k: u32)
    requires i_in_bounds { i < length row.old }
    requires k_bound { get_or row.old i 0 + k < 4294967296 }
    ensures { row.new ≡ raised_by row.old i k }
{
    row[i] += k;
}

// Carries k tokens from u to w by skeleton pairs, from the last one back.
fn trace(succ: &[u32; ROWS], skeleton: &Skeleton, row: &mut [u32], u: Event, w: Event, k: u32)
    requires u_lt_most_events { (u.0 < most_events) × (w.0 < most_events) }
    requires may_trace { MayTrace succ.now skeleton.now.skel skeleton.now.index row.old u.0 w.0 }
    requires spacious { Spacious row.old k }
    ensures { Traced succ.now skeleton.now.skel skeleton.now.index row.old row.new u.0 w.0 k }
{
    let mut cur = w;
    // From pair to pair back to u: there is no range of them.
    while cur != u {
        let v = step_back(succ, &skeleton.skel, u, cur);
        let i = pair_number(&skeleton.index, v, cur);
        carry(row, i, k);
        cur = v;
    }
}

// Folds all that u gives, where all that the givers below it give is folded.
fn fold_giver(
    succ: &[u32; ROWS],
    skeleton: &Skeleton,
    flow: &Flow,
    row: &mut [u32],
    u: Event,
    n: usize,
)
    requires u_lt_n { (u.0 < n) × (n ≤ most_events) }
    requires may_fold_giver { MayFoldGiver n u.0 succ.now skeleton.now.skel skeleton.now.index flow.now.amount.now flow.now.fed.now row.old }
    ensures { GiverFolded n u.0 succ.now skeleton.now.skel skeleton.now.index flow.now.amount.now flow.now.fed.now row.old row.new }
{
    // By number, since the number is the event.
    for w in 0..n {
        if flow.feeds(u, Event(w)) {
            let k = flow.amount(u, Event(w));
            trace(succ, skeleton, row, u, Event(w), k);
        }
    }
}

// Folds what each giver gives, from a row of zeros.
fn fold_givers(succ: &[u32; ROWS], skeleton: &Skeleton, flow: &Flow, row: &mut [u32], n: usize)
    requires n_le_most_events { n ≤ most_events }
    requires may_fold { MayFold n (length row.old) succ.now skeleton.now.skel skeleton.now.index flow.now.amount.now flow.now.fed.now }
    requires zeros { Zeros row.old }
    ensures { AllFolded n (length row.old) succ.now skeleton.now.skel skeleton.now.index flow.now.amount.now flow.now.fed.now row.new }
{
    for u in 0..n {
        fold_giver(succ, skeleton, flow, row, Event(u), n);
    }
}

// Folds a tokenflow onto the skeleton pairs: the row, one number for each pair, is written whole.
fn fold(succ: &[u32; ROWS], skeleton: &Skeleton, flow: &Flow, row: &mut [u32], n: usize)
    requires { MayFold n (length row.old) succ.now skeleton.now.skel skeleton.now.index flow.now.amount.now flow.now.fed.now }
    ensures { AllFolded n (length row.old) succ.now skeleton.now.skel skeleton.now.index flow.now.amount.now flow.now.fed.now row.new }
{
    row.fill(0);
    fold_givers(succ, skeleton, flow, row, n);
}

// Writes a flow row: the numbers of the pairs, then the shares of the events. What follows them stays.
pub fn write_flow(
    succ: &[u32; ROWS],
    skeleton: &Skeleton,
    flow: &Flow,
    row: &mut [u32],
    pairs: usize,
    n: usize,
)
    requires may_fold { MayFold n pairs succ.now skeleton.now.skel skeleton.now.index flow.now.amount.now flow.now.fed.now }
    requires n_in_bounds { pairs + n ≤ length row.old }
    ensures all_folded { AllFolded n pairs succ.now skeleton.now.skel skeleton.now.index flow.now.amount.now flow.now.fed.now row.new }
    ensures shares_from { SharesFrom pairs row.old row.new flow.now.share.now n }
{
    fold(succ, skeleton, flow, &mut row[..pairs], n);
    write_shares(&mut row[pairs..], flow.share, n);
}
