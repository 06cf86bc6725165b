// What can be done with the remembered list.
ghost use Rattle.std.specs.Prelude.{◌≡◌, [], length};
ghost use Rattle.keys.specs.Entries.{entry, gone, left};
ghost use Rattle.keys.specs.Kinds.{same_network_pair, of_one_network};
ghost use Rattle.keys.specs.Lists.{recalled};
ghost use Rattle.keys.specs.Memory.{holds, remembered, memory_of};
ghost use Rattle.keys.specs.Numbers.{remembered_capacity, most_of_network};

use super::RememberedList;
use crate::kinds::NetworkPair;
use crate::memory::{Memory, remember};
use crate::numbers::*;
use crate::{Entry, Expiry, expire, find};
use warning::Pair;
use warning::network::Network;

impl RememberedList {
    pub fn new() -> RememberedList
        ensures { recalled result ≡ [] }
    {
        let network = Network {
            mcc: 0,
            digits: 2,
            mnc: 0,
        };
        let pair = Pair {
            identifier: 0,
            serial: 0,
        };
        let key = NetworkPair { network, pair };
        RememberedList {
            entries: [Entry { key, stored: 0 }; REMEMBERED_CAPACITY],
            count: 0,
        }
    }

    // How many primaries are remembered.
    pub fn len(&self) -> usize
        ensures { result ≡ length (recalled self.now) }
    {
        self.entries().len()
    }

    // The entries, the oldest first.
    // Kept: each list is a plain struct of its own kind of key, by a rule of the project.
    pub fn entries(&self) -> &[Entry<NetworkPair>]
        ensures { result.now ≡ recalled self.now }
    {
        &self.entries[..self.count]
    }

    // Whether a primary is remembered.
    pub fn remembers(&self, key: NetworkPair) -> bool
        ensures { result ≡ holds same_network_pair key (recalled self.now) }
    {
        find(self.entries(), &key).is_some()
    }

    // Renews a primary that is remembered, and stores another as the newest. For a new one the
    // older of its network's two makes way, else the oldest of all in a full list.
    pub fn remember(&mut self, key: NetworkPair, clock: u32) -> Memory
        ensures answer { result ≡ memory_of same_network_pair key (recalled self.old) }
        ensures after { recalled self.new ≡ remembered same_network_pair of_one_network most_of_network remembered_capacity (entry key clock) (recalled self.old) }
    {
        let entry = Entry { key, stored: clock };
        remember(&mut self.entries, &mut self.count, MOST_OF_NETWORK, entry)
    }

    // Removes what was stored a period ago or more, and answers how many went.
    // The others keep their order.
    // Kept: each list is a plain struct of its own kind of key, by a rule of the project.
    pub fn expire(&mut self, expiry: Expiry) -> usize
        ensures count { result ≡ gone expiry (recalled self.old) }
        ensures after { recalled self.new ≡ left expiry (recalled self.old) }
    {
        let count = self.count;
        let gone = expire(&mut self.entries[0..count], expiry);
        self.count -= gone;
        gone
    }
}
