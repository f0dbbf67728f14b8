// How many marks a row of marks has, counted a word at a time.
// Numbers of 32 bits are cast to `usize`, which no `From` does.
#![tactic(auto)]

ghost use Rattle.std.specs.Prelude.{◌≤◌, ◌≡◌};
ghost use Rattle.ids.specs.Limits.{most_events};
ghost use Rattle.marks.specs.Marks.{HasRow};
ghost use Rattle.mark_count.specs.MarkCount.{marks_of};

use ids::WORDS;

// How many marks row `i` has. They are added up in 32 bits, like the words, so that the compiler can count several words at once.
pub fn count_marks(rows: &[u32], i: usize) -> usize
    requires { HasRow rows.now i }
    ensures { (result ≡ marks_of rows.now i) × (result ≤ most_events) }
{
    let mut count: u32 = 0;
    for word in &rows[i * WORDS..(i + 1) * WORDS] {
        count += word.count_ones();
    }
    count as usize
}
