// The clean sheet, written into a row that has room for the sheet given.
// Bytes and numbers of pairs are cast to `usize`: with `usize::from` the proofs of these loops didn't close, since an invariant then speaks of a call's result.
ghost use Rattle.std.specs.Prelude.{◌+◌, ◌*◌, ◌≤◌, ◌≡◌, length};
ghost use Rattle.finite.specs.Each.{each};
ghost use Rattle.ids.specs.Limits.{most_pairs};
ghost use Rattle.reasons.specs.KeptRows.{KeptOf};
ghost use Rattle.sheet.specs.Laid.{Laid};
ghost use Rattle.text.specs.Put.{Put};
ghost use Rattle.kept_pairs.specs.Clean.{clean_of};
ghost use Rattle.kept_pairs.specs.PairsKnown.{Events, rows_bytes};

use ids::Event;
use reader::Reader;
use reasons::KeptPairs;
use writer::{lay_out, put_pair, put_part, put_table};

// The kept pairs, in their order.
fn put_kept(kept: &KeptPairs, clean: &mut [u8], at: usize) -> usize
    requires kept_le_most_pairs { (kept.now.count ≤ most_pairs) × Events kept.now.count kept.now.from × Events kept.now.count kept.now.to }
    requires kept_in_bounds { at + 4 * kept.now.count ≤ length clean.old }
    ensures { Put clean.old clean.new at (each kept.now.count (rows_bytes kept.now.from kept.now.to)) result }
{
    let mut end = at;
    // By number: the two ends of a pair stand in two rows.
    for k in 0..kept.count {
        let a = Event(kept.from[k] as usize);
        let b = Event(kept.to[k] as usize);
        end = put_pair(clean, end, a, b);
    }
    end
}

// The table to match, what stands before the pairs as it was, and the kept pairs.
pub fn put_clean(sheet: &Reader, kept: &KeptPairs, clean: &mut [u8]) -> usize
    requires laid { Laid sheet.now.bytes.now }
    requires kept_of { KeptOf sheet.now.bytes.now kept.now }
    requires room { length sheet.now.bytes.now ≤ length clean.old }
    ensures { Put clean.old clean.new 0 (clean_of sheet.now.bytes.now) result }
{
    let l = sheet.layout();
    let table = put_table(
        clean,
        lay_out(l.places, l.transitions, l.events, kept.count),
    );
    let bodies = put_part(clean, table, sheet.bytes(), l.places_at, l.pairs_at);
    put_kept(kept, clean, bodies)
}
