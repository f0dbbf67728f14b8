// The listing of a sheet, written into a lent row of bytes. The sheet is examined once, and the rows of its order are handed on.
#![tactic(auto)]

ghost use Rattle.std.specs.Prelude.{◌+◌, ◌≤◌, ◌≡◌, length, IfOk};
ghost use Rattle.calls.specs.Said.{says};
ghost use Rattle.lines.specs.Listing.{listing_of};
ghost use Rattle.lines.specs.Room.{listing_room};
ghost use Rattle.text.specs.Output.{Written};
ghost use Rattle.listed.specs.Listed.{list_says, row_after};

use calls::find_room;
use fault::examine;
use lines::{LISTING_ROOM, put_refused};
use order::{Order, Wanted};
use plan_lines::put_lines;
use sheet::Fault;
use text::{Output, put_word};

// The listing of any bytes, where there is room for the longest.
fn put_listing(out: &mut Output, s: &[u8])
    requires { out.old.at + listing_room ≤ length out.old.row.now }
    ensures { Written out.old (listing_of s.now) out.new }
{
    let mut order = Order::blank();
    match examine(s, Wanted::Before, &mut order) {
        Ok(sheet) => put_lines(out, &sheet, &order.pred),
        Err(fault) => put_refused(out, fault.number()),
    }
}

// Writes the listing of any bytes into a lent row and tells its length. A row that is too short is left as it is.
pub fn write_listing(s: &[u8], row: &mut [u8]) -> Result<usize, Fault>
    ensures result_value { says result ≡ list_says s.now row.old }
    ensures row_value { row.new ≡ row_after s.now row.old }
    ensures within { IfOk result (λ n. n ≤ length row.old) }
{
    let mut text = [0u8; LISTING_ROOM];
    let mut out = Output {
        row: &mut text,
        at: 0,
    };
    put_listing(&mut out, s);
    let n = out.at;
    let listing = &*out.row;
    find_room(row.len(), n)?;
    put_word(row, 0, &listing[..n]);
    Ok(n)
}
