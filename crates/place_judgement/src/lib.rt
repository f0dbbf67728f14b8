// The place judgement: one place of a sheet's plan settled over all orders, with what shows it handed over in the lent rows.
#![tactic(auto)]

ghost use Rattle.std.specs.Prelude.{◌≡◌};
ghost use Rattle.place_judgement.specs.Judgement.{says, judgement_says, Handed, marks_after};

use calls::{find_place, find_room};
use fault::examine;
use ids::{Place, SMALL};
use order::{Order, Wanted};
use sheet::Fault;
use sized_judging::judge_within;

// The place judgement: the opening count less the least opening count with which the plan runs at the place; below 0 it doesn't run there.
// Running: the flow row holds a valid flow and the marks are 0. Short: its numbers are 0, and the marks are 1 for the smallest done set at which
// most tokens lack. A fault changes neither row.
pub fn judge_place(s: &[u8], p: Place, flow: &mut [u32], marks: &mut [u8]) -> Result<i32, Fault>
    ensures result_value { says result ≡ judgement_says s.now p.0 flow.old marks.old }
    ensures marks_value { marks.new ≡ marks_after s.now p.0 flow.old marks.old }
    ensures handed { Handed s.now p.0 flow.old marks.old flow.new }
{
    let mut order = Order::blank();
    let sheet = examine(s, Wanted::Both, &mut order)?;
    find_place(&sheet, p)?;
    find_room(flow.len(), sheet.pairs() + sheet.events())?;
    find_room(marks.len(), sheet.events())?;
    let spare = judge_within(&sheet, p, &order, flow, marks, SMALL);
    Ok(spare)
}
