// Rows of marks, one for each event, in words of 32 bits: is it set, set it, remove it, join two rows, have two rows a mark in common.
// The definitions are in specs/; a caller needs `marked` and what these contracts say of it.
#![tactic(auto)]

ghost use Rattle.std.specs.Prelude.{◌<◌, ◌≡◌};
ghost use Rattle.ids.specs.Limits.{most_events};
ghost use Rattle.marks.specs.Marks.{marked, meeting, HasRow, MarkAdded, MarkRemoved, RowJoined};

use ids::WORDS;

// The bits of a word.
pub const BITS: usize = 32;

pub fn is_marked(rows: &[u32], i: usize, j: usize) -> bool
    requires has_row { HasRow rows.now i }
    requires j_lt_most_events { j < most_events }
    ensures { result ≡ marked rows.now i j }
{
    (rows[i * WORDS + j / BITS] >> (j % BITS)) % 2 == 1
}

// Setting and removing a mark differ in the operation on one word: a function for both would be no plainer.
pub fn mark(rows: &mut [u32], i: usize, j: usize)
    requires has_row { HasRow rows.old i }
    requires j_lt_most_events { j < most_events }
    ensures { MarkAdded rows.old rows.new i j }
{
    rows[i * WORDS + j / BITS] |= 1u32 << (j % BITS);
}

pub fn unmark(rows: &mut [u32], i: usize, j: usize)
    requires has_row { HasRow rows.old i }
    requires j_lt_most_events { j < most_events }
    ensures { MarkRemoved rows.old rows.new i j }
{
    rows[i * WORDS + j / BITS] &= !(1u32 << (j % BITS));
}

// Joins the row `from` into the row `into`. Both lie in one slice, so no iterator lends the one while the other is written.
pub fn join(rows: &mut [u32], from: usize, into: usize)
    requires has_row { HasRow rows.old from }
    requires has_row_2 { HasRow rows.old into }
    ensures { RowJoined rows.old rows.new from into }
{
    for k in 0..WORDS {
        rows[into * WORDS + k] |= rows[from * WORDS + k];
    }
}

// Whether row `i` of `a` and row `j` of `b` have a mark in common.
pub fn meets(a: &[u32], i: usize, b: &[u32], j: usize) -> bool
    requires has_row { HasRow a.now i }
    requires has_row_2 { HasRow b.now j }
    ensures { result ≡ meeting a.now i b.now j }
{
    let row = &a[i * WORDS..(i + 1) * WORDS];
    let other = &b[j * WORDS..(j + 1) * WORDS];
    let mut both: u32 = 0;
    for (x, y) in row.iter().zip(other) {
        both |= x & y;
    }
    both != 0
}
