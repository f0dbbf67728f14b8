// The links of the chain of faults of a call that follow the sheet's own: 12, a place's, and 13, each lent row's. A caller asks one after another with
// `?`, so that a lower fault is handed on.
#![tactic(auto)]

ghost use Rattle.std.specs.Prelude.{◌≡◌, leb, ltb};
ghost use Rattle.sheet.specs.Answered.{told_by};
ghost use Rattle.sheet.specs.Table.{places_of};
ghost use Rattle.sheet.specs.Told.{tell, plain};

use ids::Place;
use reader::Reader;
use sheet::Fault;

// 12: the place number isn't in the net.
pub fn find_place(sheet: &Reader, p: Place) -> Result<(), Fault>
    ensures { told_by result ≡ tell 12 (plain (leb (places_of sheet.now.bytes.now) p.0)) }
{
    if sheet.places() <= p.0 {
        return Err(Fault::NoPlace);
    }
    Ok(())
}

// 13: a lent row of `have` entries is too short for those needed.
pub fn find_room(have: usize, needed: usize) -> Result<(), Fault>
    ensures { told_by result ≡ tell 13 (plain (ltb have needed)) }
{
    if have < needed {
        return Err(Fault::ShortRow);
    }
    Ok(())
}
