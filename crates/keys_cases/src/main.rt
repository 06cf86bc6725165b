// Reads calls on the two lists of keys from the input, one to a line, and prints the answers.
#![tactic(auto)]

use anyhow::anyhow;
use keys::kinds::NetworkPair;
use keys::memory::Memory;
use keys::open_list::{OpenList, StoreFault};
use keys::remembered::RememberedList;
use keys::{Entry, Expiry};
use std::alloc::Global;
use std::fmt;
use std::fmt::Write;
use std::io::{BufRead, BufReader};
use warning::Pair;
use warning::network::Network;

#[derive(Clone, Copy)]
enum Call {
    Open(Pair, u32),
    Close(Pair),
    ExpireOpen(Expiry),
    ClearOpen,
    ListOpen,
    Remember(NetworkPair, u32),
    Expire(Expiry),
    List,
}

fn short(number: u32) -> anyhow::Result<u16> {
    u16::try_from(number).map_err(|_| anyhow!("a number of more than 16 bits"))
}

fn pair(identifier: u32, serial: u32) -> anyhow::Result<Pair> {
    let identifier = short(identifier)?;
    let serial = short(serial)?;
    Ok(Pair { identifier, serial })
}

fn network(mcc: u32, digits: u32, mnc: u32) -> anyhow::Result<Network> {
    let mcc = short(mcc)?;
    let mnc = short(mnc)?;
    let digits = u8::try_from(digits).map_err(|_| anyhow!(
        "a count of digits of more than 8 bits"
    ))?;
    Network::new(mcc, digits, mnc).ok_or_else(|| anyhow!("no network"))
}

fn read(name: &str, numbers: &[u32]) -> anyhow::Result<Call> {
    match (name, numbers) {
        ("open", &[identifier, serial, clock]) => Ok(Call::Open(pair(identifier, serial)?, clock)),
        ("close", &[identifier, serial]) => Ok(Call::Close(pair(identifier, serial)?)),
        ("expire_open", &[clock, period]) => Ok(Call::ExpireOpen(Expiry { clock, period })),
        ("clear_open", []) => Ok(Call::ClearOpen),
        ("list_open", []) => Ok(Call::ListOpen),
        ("remember", &[mcc, digits, mnc, identifier, serial, clock]) => {
            let network = network(mcc, digits, mnc)?;
            let pair = pair(identifier, serial)?;
            Ok(Call::Remember(NetworkPair { network, pair }, clock))
        }
        ("expire", &[clock, period]) => Ok(Call::Expire(Expiry { clock, period })),
        ("list", []) => Ok(Call::List),
        _ => Err(anyhow!("no such call")),
    }
}

// A key as it is printed.
#[derive(Clone, Copy)]
struct Shown<K>(K);

impl fmt::Display for Shown<Pair> {
    fn fmt<W: fmt::Write>(&self, f: &mut fmt::Formatter<W>) -> fmt::Result {
        write!(f, "{}/{}", self.0.identifier, self.0.serial)
    }
}

impl fmt::Display for Shown<NetworkPair> {
    fn fmt<W: fmt::Write>(&self, f: &mut fmt::Formatter<W>) -> fmt::Result {
        let network = self.0.network;
        let pair = Shown(self.0.pair);
        write!(
            f,
            "{}-{}-{}:{pair}",
            network.mcc, network.digits, network.mnc
        )
    }
}

// A list as it is printed: the count, and each entry with its clock.
fn list<K: Copy>(heap: Global, entries: &[Entry<K>]) -> anyhow::Result<String>
where
    Shown<K>: fmt::Display,
{
    let mut text = entries.len().to_string(heap)?;
    for e in entries {
        write!(text, " {}@{}", Shown(e.key), e.stored)?;
    }
    Ok(text)
}

#[derive(Drop)]
struct Lists {
    open: OpenList,
    remembered: RememberedList,
}

impl Lists {
    fn answer(&mut self, heap: Global, call: Call) -> anyhow::Result<String> {
        let text = match call {
            Call::Open(pair, clock) => {
                let word = match self.open.store(pair, clock) {
                    Ok(()) => "stored",
                    Err(StoreFault::Known) => "known",
                    Err(StoreFault::Full) => "full",
                };
                word.to_string(heap)?
            }
            Call::Close(pair) => {
                let word = if self.open.remove(pair) {
                    "removed"
                } else {
                    "absent"
                };
                word.to_string(heap)?
            }
            Call::ExpireOpen(expiry) => self.open.expire(expiry).to_string(heap)?,
            Call::ClearOpen => self.open.clear().to_string(heap)?,
            Call::ListOpen => list(heap, self.open.entries())?,
            Call::Remember(key, clock) => {
                let word = match self.remembered.remember(key, clock) {
                    Memory::Known => "known",
                    Memory::New => "stored",
                };
                word.to_string(heap)?
            }
            Call::Expire(expiry) => self.remembered.expire(expiry).to_string(heap)?,
            Call::List => list(heap, self.remembered.entries())?,
        };
        Ok(text)
    }
}

fn run(rt: &HostRuntime) -> anyhow::Result<()> {
    let heap = rt.alloc();
    let mut lists = Lists {
        open: OpenList::new(),
        remembered: RememberedList::new(),
    };
    for line in BufReader::new(heap, rt.stdin())?.lines(heap) {
        let line = line?;
        let mut words = line.as_str().split_whitespace();
        let name = words.next().ok_or_else(|| anyhow!("an empty line"))?;
        let numbers: Vec<u32> = words
            .map(|word| word.parse::<u32>().map_err(anyhow::Error::from))
            .try_collect(heap)?;
        let call = read(name, numbers.as_slice())?;
        rt.println(lists.answer(heap, call)?)?;
    }
    Ok(())
}

fn main(rt: HostRuntime) -> anyhow::Result<()> {
    run(&rt)
}
