// The fault of a sheet, over any bytes, and its reader and the order of its plan where it has none.
#![tactic(auto)]

ghost use Rattle.std.specs.Prelude.{◌≡◌, IfOk};
ghost use Rattle.sheet.specs.Answered.{told_by};
ghost use Rattle.sheet.specs.Faultless.{Faultless};
ghost use Rattle.sheet.specs.Faults.{content_faults, first_fault, fault_of};
ghost use Rattle.sheet.specs.Items.{plan_of};
ghost use Rattle.sheet.specs.Laid.{Laid};
ghost use Rattle.order.specs.Rows.{Blank, WantedRows};

use items::{no_event, number_fault, self_pair};
use order::{Order, Wanted, order_fault};
use reader::{Reader, read_laid};
use sheet::Fault;

// The first of faults 5 to 11. The layout has no fault.
fn content_fault(sheet: &Reader, wanted: Wanted, order: &mut Order) -> Result<(), Fault>
    requires laid { Laid sheet.now.bytes.now }
    requires blank { Blank order.old.succ × Blank order.old.pred }
    ensures fault { told_by result ≡ first_fault content_faults sheet.now.bytes.now }
    ensures rows { IfOk result (λ _. WantedRows wanted (plan_of sheet.now.bytes.now) order.new.succ order.new.pred) }
{
    number_fault(sheet)?;
    no_event(sheet)?;
    self_pair(sheet)?;
    order_fault(sheet, wanted, order)
}

// The reader of a sheet that has no fault, and the rows of its order that the caller wants: `succ` marks what is after each event and `pred` what
// is before it. Else the sheet's fault.
pub fn examine<'a>(s: &'a [u8], wanted: Wanted, order: &mut Order) -> Result<Reader<'a>, Fault>
    requires { Blank order.old.succ × Blank order.old.pred }
    ensures fault { told_by result ≡ fault_of s.now }
    ensures found { IfOk result (λ r. (r.bytes.now ≡ s.now) × Faultless s.now × WantedRows wanted (plan_of s.now) order.new.succ order.new.pred) }
{
    let sheet = read_laid(s)?;
    content_fault(&sheet, wanted, order)?;
    Ok(sheet)
}

// The fault of a sheet, if it has one.
pub fn fault_of(s: &[u8]) -> Result<(), Fault>
    ensures { told_by result ≡ fault_of s.now }
{
    let mut order = Order::blank();
    examine(s, Wanted::Nothing, &mut order)?;
    Ok(())
}
