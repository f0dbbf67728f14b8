// The pairs of a sheet that are kept: the reasons of the others and whether those that are kept have a cycle; and the clean sheet with them.
#![tactic(auto)]

pub mod clean;

ghost use Rattle.std.specs.Prelude.{◌≤◌, ◌≡◌, length};
ghost use Rattle.ids.specs.Limits.{most_pairs};
ghost use Rattle.reasons.specs.Reasons.{kept_cycle};
ghost use Rattle.sheet.specs.Answered.{told_by};
ghost use Rattle.sheet.specs.Laid.{Laid};
ghost use Rattle.sheet.specs.Told.{tell, plain};
ghost use Rattle.kept_pairs.specs.PairsKnown.{PairsKnown};

use reader::Reader;
use reasons::{KeptPairs, give_reasons};
use rising::has_cycle;
use sheet::Fault;
use sorting::Pairs;

// The reasons of the pairs, and those that are kept. 11: they have a cycle.
pub fn examine_pairs(sheet: &Reader, reasons: &mut [u8], kept: &mut KeptPairs) -> Result<(), Fault>
    requires laid { Laid sheet.now.bytes.now }
    requires most_pairs_in_bounds { most_pairs ≤ length reasons.old }
    ensures fault { told_by result ≡ tell 11 (plain (kept_cycle sheet.now.bytes.now)) }
    ensures pairs_known { PairsKnown sheet.now.bytes.now reasons.old reasons.new kept.new }
{
    give_reasons(sheet, reasons, kept);
    let pairs = Pairs {
        events: sheet.events(),
        count: kept.count,
        from: &kept.from,
        to: &kept.to,
    };
    if has_cycle(&pairs) {
        return Err(Fault::Cycle);
    }
    Ok(())
}
