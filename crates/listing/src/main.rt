// Prints the listing of the sheet on standard input. At most one byte more than the longest sheet has is read, which is enough to fault a longer
// one rightly.
//
// Where the input can't be read nothing is printed, and standard error says why; so it does where the listing can't be written. The exit status is 0
// in any case.
#![tactic(auto)]

use layout::LONGEST;
use lines::LISTING_ROOM;
use listed::write_listing;
use standard_input::{read_sheet, report};
use std::io::Write;

fn print(rt: &HostRuntime, text: &[u8]) {
    if let Err(error) = rt.stdout().write_all(text) {
        report(rt, "listing", "standard output can't be written", error);
    }
}

// Any listing has room in the row, so none is refused.
fn list(rt: &HostRuntime, sheet: &[u8]) {
    let mut text = [0u8; LISTING_ROOM];
    if let Ok(n) = write_listing(sheet, &mut text) {
        print(rt, &text[..n]);
    }
}

fn main(rt: HostRuntime) {
    let mut sheet = [0u8; LONGEST + 1];
    match read_sheet(&mut rt.stdin(), &mut sheet) {
        Ok(n) => list(&rt, &sheet[..n]),
        Err(error) => report(&rt, "listing", "standard input can't be read", error),
    }
}
