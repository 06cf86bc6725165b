// Lists the warnings of a tape that comes on standard input.
#![tactic(auto)]

use listing::list::list;
use std::io::Read;

fn run(rt: &HostRuntime) -> anyhow::Result<()> {
    let heap = rt.alloc();
    let mut tape = Vec::new(heap);
    rt.stdin().read_to_end(&mut tape)?;
    // its last line says how it ended
    let _ = list(rt, heap, tape.as_slice())?;
    Ok(())
}

fn main(rt: HostRuntime) -> anyhow::Result<()> {
    run(&rt)
}
