// What the counts of all places come to: the total missing, the number of short places, and the verdict.
// Numbers are cast to fewer bits, which loses nothing, as the check proves: `TryFrom` would need an answer for what can't come.
#![tactic(auto)]

ghost use Rattle.std.specs.Prelude.{◌+◌, ◌≤◌, ◌<◌, ◌≡◌, length};
ghost use Rattle.ids.specs.Limits.{most_places};
ghost use Rattle.summary.specs.Summary.{total_missing, short_places, count_at, MissingCounts, values_in, values_of};
ghost use Rattle.summary.specs.Summary.{VerdictOf, NextVerdict, verdict_number, verdict_place};

use ids::Place;

// A plan runs, or is short at a first place by a missing count.
#[derive(Clone, Copy)]
pub enum Verdict {
    Runs,
    Short(Place, u32),
}

// What is missing in all, how many places are short, and the verdict.
#[derive(Clone, Copy)]
pub struct Totals {
    pub total: u32,
    pub short: u32,
    pub verdict: Verdict,
}

fn total_missing(counts: &[u32]) -> u32
    requires { MissingCounts counts.now (length counts.now) }
    ensures { result ≡ total_missing (count_at counts.now) (length counts.now) }
{
    counts.iter().sum()
}

fn short_places(counts: &[u32]) -> u32
    requires { MissingCounts counts.now (length counts.now) }
    ensures { result ≡ short_places (count_at counts.now) (length counts.now) }
{
    counts.iter().filter(|m| **m > 0).count() as u32
}

// The verdict on the places below p and on p itself, where m are missing: the first short place stays.
fn keep_first(v: Verdict, p: Place, m: u32) -> Verdict
    ensures { NextVerdict v p.0 m result }
{
    if m == 0 {
        return v;
    }
    match v {
        Verdict::Runs => Verdict::Short(p, m),
        Verdict::Short(q, k) => Verdict::Short(q, k),
    }
}

// Place by place and no `position`: that the verdict with one place more is `NextVerdict` is what each turn keeps.
fn verdict_of(counts: &[u32]) -> Verdict
    ensures { VerdictOf (count_at counts.now) (length counts.now) result }
{
    let mut v = Verdict::Runs;
    for p in 0..counts.len() {
        v = keep_first(v, Place(p), counts[p]);
    }
    v
}

// What the counts of the first n places come to.
pub fn sum_up(row: &[u32], n: usize) -> Totals
    requires { MissingCounts row.now n × (n ≤ length row.now) }
    ensures { values_in result ≡ values_of (count_at row.now) n }
{
    let counts = &row[..n];
    let total = total_missing(counts);
    let short = short_places(counts);
    let verdict = verdict_of(counts);
    Totals {
        total,
        short,
        verdict,
    }
}

// This and `first_place` stay functions and no methods: docs/ name them.
// 0 for a plan that runs, or 1,000 plus the number of the first short place.
pub fn verdict_number(v: Verdict) -> u32
    requires { verdict_number v < 1000 + most_places }
    ensures { result ≡ verdict_number v }
{
    match v {
        Verdict::Runs => 0,
        Verdict::Short(p, _m) => 1000 + p.0 as u32,
    }
}

// The number of the first short place, 0 for a plan that runs.
pub fn first_place(v: Verdict) -> u32
    requires { verdict_place v ≤ most_places }
    ensures { result ≡ verdict_place v }
{
    if let Verdict::Short(p, _m) = v {
        return p.0 as u32;
    }
    0
}
