// Mends the sheet on standard input: the clean sheet on standard output, and on standard error a line for each pair that was dropped. At most one byte more
// than the longest sheet has is read, which is enough to fault a longer one rightly.
//
// A sheet that is refused has nothing on standard output, and one line on standard error that says so. The exit status is 0 in any case.
#![tactic(auto)]

mod words;

ghost use Rattle.std.specs.Prelude.{◌≤◌, length};

use ids::{Event, PAIRS};
use layout::LONGEST;
use mending::mend;
use reader::read_laid;
use reasons::Reason;
use sheet::Fault;
use standard_input::{read_sheet, report};
use std::io::Write;
use text::Output;
use words::{put_dropped, put_refused};

// The room of a line on standard error.
const LINE: usize = 100;

// Where standard error can't be written, nothing is left to be done.
fn say(rt: &HostRuntime, out: &Output)
    requires { out.now.at ≤ length out.now.row.now }
{
    let row = &*out.row;
    let _ = rt.stderr().write_all(&row[..out.at]);
}

fn refuse(rt: &HostRuntime, f: Fault) {
    let mut line = [0u8; LINE];
    let mut out = Output {
        row: &mut line,
        at: 0,
    };
    put_refused(&mut out, f);
    say(rt, &out);
}

// Says why the pair number i, from a to b, was dropped.
fn tell_pair(rt: &HostRuntime, i: usize, a: Event, b: Event, reason: Reason) {
    let mut line = [0u8; LINE];
    let mut out = Output {
        row: &mut line,
        at: 0,
    };
    put_dropped(&mut out, i, a, b, reason);
    say(rt, &out);
}

// Says of each dropped pair why. A sheet that was mended has a layout without fault.
fn tell_reasons(rt: &HostRuntime, bytes: &[u8], reasons: &[u8; PAIRS]) {
    if let Ok(sheet) = read_laid(bytes) {
        for i in 0..sheet.pairs() {
            if let Some(reason) = Reason::said(reasons[i]) {
                tell_pair(rt, i, sheet.earlier(i), sheet.later(i), reason);
            }
        }
    }
}

// Whether the clean sheet was printed; where it wasn't, standard error says why.
fn print(rt: &HostRuntime, clean: &[u8]) -> bool {
    match rt.stdout().write_all(clean) {
        Ok(()) => true,
        Err(error) => {
            report(rt, "mend", "standard output can't be written", error);
            false
        }
    }
}

fn mend_sheet(rt: &HostRuntime, sheet: &[u8]) {
    let mut clean = [0u8; LONGEST];
    let mut reasons = [0u8; PAIRS];
    match mend(sheet, &mut clean, &mut reasons) {
        Err(fault) => refuse(rt, fault),
        Ok(n) => {
            if n <= clean.len() && print(rt, &clean[..n]) {
                tell_reasons(rt, sheet, &reasons);
            }
        }
    }
}

fn main(rt: HostRuntime) {
    let mut row = [0u8; LONGEST + 1];
    match read_sheet(&mut rt.stdin(), &mut row) {
        Ok(n) => mend_sheet(&rt, &row[..n]),
        Err(error) => report(&rt, "mend", "standard input can't be read", error),
    }
}
