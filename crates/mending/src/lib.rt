// Mending a sheet: the clean sheet and the reason of each given pair, in lent rows. The pairs are looked through in rows of the call's own, so that no
// lent row is written before every fault is looked for.
// The row of reasons is bytes, as C lends it (reedanchor_mend of include/reedanchor.h).
#![tactic(auto)]

ghost use Rattle.std.specs.Prelude.{◌≤◌, ◌≡◌, length, IfOk};
ghost use Rattle.calls.specs.Said.{says};
ghost use Rattle.ids.specs.Limits.{most_pairs};
ghost use Rattle.kept_pairs.specs.PairsKnown.{PairsKnown};
ghost use Rattle.sheet.specs.Answered.{told_by};
ghost use Rattle.mending.specs.Mended.{sheet_fault, mend_says, clean_after, reasons_after};

use calls::find_room;
use ids::PAIRS;
use kept_pairs::clean::put_clean;
use kept_pairs::examine_pairs;
use reader::{Reader, read_laid};
use reasons::KeptPairs;
use sheet::Fault;
use weights::rare_number_fault;

// The sheet and its pairs, or the fault that stands in the way of mending, but for the rows that are lent.
#[tactic(auto, using(crate::proofs::Parts::by_layout, crate::proofs::Parts::by_number, crate::proofs::Parts::by_cycle))]
fn examine_sheet<'a>(
    s: &'a [u8],
    reasons: &mut [u8],
    kept: &mut KeptPairs,
) -> Result<Reader<'a>, Fault>
    requires { most_pairs ≤ length reasons.old }
    ensures fault { told_by result ≡ sheet_fault s.now }
    ensures found { IfOk result (λ r. (r.bytes.now ≡ s.now) × PairsKnown s.now reasons.old reasons.new kept.new) }
{
    let sheet = read_laid(s)?;
    rare_number_fault(&sheet)?;
    examine_pairs(&sheet, reasons, kept)?;
    Ok(sheet)
}

// Writes the clean sheet of any bytes into one lent row, the reason of each given pair into the other, and tells the clean sheet's length. A refused
// call changes neither.
pub fn mend(s: &[u8], clean: &mut [u8], reasons: &mut [u8]) -> Result<usize, Fault>
    ensures result_value { says result ≡ mend_says s.now clean.old reasons.old }
    ensures clean_value { clean.new ≡ clean_after s.now clean.old reasons.old }
    ensures reasons_value { reasons.new ≡ reasons_after s.now clean.old reasons.old }
{
    let mut given = [0u8; PAIRS];
    let mut kept = KeptPairs::none();
    let sheet = examine_sheet(s, &mut given, &mut kept)?;
    let pairs = sheet.pairs();
    find_room(reasons.len(), pairs)?;
    find_room(clean.len(), s.len())?;
    reasons[..pairs].copy_from_slice(&given[..pairs]);
    Ok(put_clean(&sheet, &kept, clean))
}
