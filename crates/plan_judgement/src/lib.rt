// The plan judgement: whether a sheet's plan runs at every place of its net, and the missing count of each in a lent row.
#![tactic(auto)]

ghost use Rattle.std.specs.Prelude.{◌≡◌};
ghost use Rattle.plan_judgement.specs.Judgement.{says, plan_says, row_of};

use calls::find_room;
use fault::examine;
use order::{Order, Wanted};
use sheet::Fault;
use sized_counts::count_all;
use summary::{Totals, sum_up};

// The plan judgement. The order is worked out once for all places, and each is settled no further than what is missing there asks for.
pub fn judge_plan(s: &[u8], row: &mut [u32]) -> Result<Totals, Fault>
    ensures result_value { says result ≡ plan_says s.now row.old }
    ensures row_value { row.new ≡ row_of s.now row.old }
{
    let mut order = Order::blank();
    let sheet = examine(s, Wanted::Before, &mut order)?;
    let places = sheet.places();
    find_room(row.len(), places)?;
    count_all(&sheet, false, &order.pred, row);
    Ok(sum_up(row, places))
}
