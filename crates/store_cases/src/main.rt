// Reads store calls, one to a line, makes them on berths and on a pool, and
// prints an answer for each.
#![tactic(auto)]

use berths::Berths;
use calls::*;
use pool::Pool;
use std::alloc::Global;
use std::io;
use std::io::{BufRead, BufReader};

mod calls;

// The answer to one line, if it is well formed.
fn answer_line(
    heap: Global,
    berths: &mut Berths,
    pool: &mut Pool,
    line: &str,
) -> Option<Result<Answer, CallError>> {
    let mut words = line.split_whitespace();
    let store = words.next()?;
    let call = read_call(&mut words)?;
    match store {
        "berths" => Some(perform(heap, berths, call)),
        "pool" => Some(perform(heap, pool, call)),
        _ => None,
    }
}

// Kept: a loop for both programs would take a closure and have the same match.
fn main(rt: HostRuntime) -> io::Result<()> {
    let heap = rt.alloc();
    let mut berths = Berths::new();
    let mut pool = Pool::new();
    for line in BufReader::new(heap, rt.stdin())?.lines(heap) {
        let line = line?;
        match answer_line(heap, &mut berths, &mut pool, line.as_str()) {
            None => rt.println("malformed")?,
            Some(Ok(answer)) => rt.println(answer)?,
            Some(Err(CallError::Refused(refusal))) => rt.println(refusal)?,
            Some(Err(CallError::Memory(error))) => return Err(error.into()),
        }
    }
    Ok(())
}
