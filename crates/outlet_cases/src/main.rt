// Reads outlet calls, one to a line, makes them on a rack and on a tape
// outlet, and prints an answer for each.
#![tactic(auto)]

use calls::*;
use rack::Rack;
use std::alloc::Global;
use std::io;
use std::io::{BufRead, BufReader};
use tape_outlet::TapeOutlet;

mod calls;

// The answer to one line, if it is well formed.
fn answer_line(
    heap: Global,
    rack: &mut Rack,
    tape: &mut TapeOutlet,
    line: &str,
) -> Option<Result<Answer, CallError>> {
    match read_request(line)? {
        Request::OnRack(call) => Some(perform(heap, rack, call)),
        Request::OnTape(call) => Some(perform(heap, tape, call)),
        Request::TapeOctets => Some(Ok(octets_answer(tape.tape()))),
    }
}

// Kept: a loop for both programs would take a closure and have the same match.
fn main(rt: HostRuntime) -> io::Result<()> {
    let heap = rt.alloc();
    let mut rack = Rack::new();
    let mut tape = TapeOutlet::new();
    for line in BufReader::new(heap, rt.stdin())?.lines(heap) {
        let line = line?;
        match answer_line(heap, &mut rack, &mut tape, line.as_str()) {
            None => rt.println("malformed")?,
            Some(Ok(answer)) => rt.println(answer)?,
            Some(Err(CallError::Refused(refusal))) => rt.println(refusal)?,
            Some(Err(CallError::Memory(error))) => return Err(error.into()),
        }
    }
    Ok(())
}
