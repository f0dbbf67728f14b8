// The last mark that two rows of marks have in common, or that one has and the other lacks.
// Numbers of 32 bits are cast to `usize`, which no `From` does.
#![tactic(auto)]

ghost use Rattle.std.specs.Prelude.{◌<◌};
ghost use Rattle.marks.specs.Marks.{HasRow, SetBit};
ghost use Rattle.last_mark.specs.Found.{Both, Only, Shown, Tells};

use ids::WORDS;
use marks::BITS;

// The place of the highest bit.
fn top(x: u32) -> usize
    requires { 0 < x }
    ensures { SetBit x result }
{
    (31 - u32::leading_zeros(x)) as usize
}

// The last mark of the words that `meet` makes of row `i` of `a` and row `j` of `b`.
fn last<F: Fn(u32, u32) -> u32>(a: &[u32], i: usize, b: &[u32], j: usize, meet: F) -> Option<usize>
    requires has_row { HasRow a.now i }
    requires has_row_2 { HasRow b.now j }
    requires callable { F.IsAlwaysCallable meet }
    ensures { Shown (F.post meet) a.now i b.now j result }
{
    for k in (0..WORDS).rev() {
        let x = meet(a[i * WORDS + k], b[j * WORDS + k]);
        if x != 0 {
            return Some(k * BITS + top(x));
        }
    }
    None
}

// A mark that row `i` of `a` and row `j` of `b` both have: the last one.
pub fn last_common(a: &[u32], i: usize, b: &[u32], j: usize) -> Option<usize>
    requires has_row { HasRow a.now i }
    requires has_row_2 { HasRow b.now j }
    ensures { Tells (Both a.now i b.now j) result }
{
    last(a, i, b, j, |x, y| x & y)
}

// A mark that row `i` of `a` has and row `j` of `b` lacks: the last one.
pub fn last_only(a: &[u32], i: usize, b: &[u32], j: usize) -> Option<usize>
    requires has_row { HasRow a.now i }
    requires has_row_2 { HasRow b.now j }
    ensures { Tells (Only a.now i b.now j) result }
{
    last(a, i, b, j, |x, y| x & !y)
}
