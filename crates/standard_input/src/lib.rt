// A sheet read from standard input, for the programs.
#![tactic(auto)]

ghost use Rattle.std.specs.Prelude.{◌≤◌, length, IfOk};

use std::io;
use std::io::{Eprint, ErrorKind, Read};

// Reads until the row is full or the input ends. A read that a signal interrupts is tried again; turns are counted, so that the loop is
// proved to end. std's `read_exact` doesn't say how much a short input has, and its `read_to_end` needs the heap.
pub fn read_sheet<R: Read>(input: &mut R, row: &mut [u8]) -> io::Result<usize>
    ensures { IfOk result (λ n. n ≤ length row.old) }
{
    let mut done = 0;
    for _ in 0..100000 {
        if done == row.len() {
            return Ok(done);
        }
        match input.read(&mut row[done..]) {
            Ok(0) => return Ok(done),
            Ok(got) => done += got,
            Err(error) if error.kind() == ErrorKind::Interrupted => {}
            Err(error) => return Err(error),
        }
    }
    Err(io::Error::from(ErrorKind::Interrupted))
}

// The system's words for an error, without its number.
fn words_alone(told: &str) -> &str {
    match told.split_once(" (os error ") {
        Some((words, _)) => words,
        None => told,
    }
}

// Says on standard error what failed and why. Where that can't be written either, nothing is left to be done.
pub fn report<R: Eprint + AllocGlobal>(rt: &R, program: &str, what: &str, error: io::Error) {
    match format!(in rt.alloc(); "{error}") {
        Ok(told) => {
            let words = words_alone(told.as_str());
            let _ = eprintln!(rt; "{program}: {what}: {words}");
        }
        Err(_) => {
            let _ = eprintln!(rt; "{program}: {what}: {error}");
        }
    }
}
