// Lists many tapes that come on standard input, each after its length of four
// octets. What is printed is compared with the listings of another program.
#![tactic(auto)]

ghost use Rattle.std.specs.Prelude.{length};
ghost use Rattle.std.specs.Iterator.{at_most};

use anyhow::anyhow;
use listing::list::list;
use std::alloc::Global;
use std::io::Read;

// The tapes of an input, as long as it begins with one.
#[derive(Drop)]
struct Tapes<'a> {
    rest: &'a [u8],
}

impl<'a> Iterator for Tapes<'a> {
    type Item = &'a [u8];

    ghost remaining = { λ tapes. at_most (length tapes.rest.now) };

    fn next(&mut self) -> Option<&'a [u8]> {
        let (length, rest) = self.rest.split_first_chunk::<4>()?;
        let length = u32::from_be_bytes(*length) as usize;
        let (tape, rest) = rest.split_at_checked(length)?;
        self.rest = rest;
        Some(tape)
    }
}

fn list_all(rt: &HostRuntime, heap: Global, input: &[u8]) -> anyhow::Result<()> {
    let mut tapes = Tapes { rest: input };
    for (n, tape) in tapes.by_ref().enumerate() {
        println!(rt; "tape {n}")?;
        let _ = list(rt, heap, tape)?;
    }
    if tapes.rest.is_empty() {
        Ok(())
    } else {
        Err(anyhow!("octets that are no tape"))
    }
}

fn run(rt: &HostRuntime) -> anyhow::Result<()> {
    let heap = rt.alloc();
    let mut input = Vec::new(heap);
    rt.stdin().read_to_end(&mut input)?;
    list_all(rt, heap, input.as_slice())
}

fn main(rt: HostRuntime) -> anyhow::Result<()> {
    run(&rt)
}
