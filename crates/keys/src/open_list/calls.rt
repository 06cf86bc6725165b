// What can be done with the open list.
ghost use Rattle.std.specs.Prelude.{◌≡◌, [], length, is_ok, if◌then◌else◌};
ghost use Rattle.keys.specs.Entries.{entry, place, Found, without, stored_last, gone, left};
ghost use Rattle.keys.specs.Kinds.{same_pair};
ghost use Rattle.keys.specs.Memory.{holds};
ghost use Rattle.keys.specs.Lists.{opened, store_outcome};

use super::{OpenList, StoreFault};
use crate::numbers::*;
use crate::{Entry, Expiry, expire, find, remove, store};
use warning::Pair;

impl OpenList {
    pub fn new() -> OpenList
        ensures { opened result ≡ [] }
    {
        let key = Pair {
            identifier: 0,
            serial: 0,
        };
        OpenList {
            entries: [Entry { key, stored: 0 }; OPEN_CAPACITY],
            count: 0,
        }
    }

    // How many warnings are open.
    pub fn len(&self) -> usize
        ensures { result ≡ length (opened self.now) }
    {
        self.entries().len()
    }

    // The entries, the oldest first.
    // Kept: each list is a plain struct of its own kind of key, by a rule of the project.
    pub fn entries(&self) -> &[Entry<Pair>]
        ensures { result.now ≡ opened self.now }
    {
        &self.entries[..self.count]
    }

    // Where the pair stands.
    pub fn find(&self, pair: Pair) -> Option<usize>
        ensures value { result ≡ place same_pair pair (opened self.now) }
        ensures found { Found pair (opened self.now) result }
    {
        find(self.entries(), &pair)
    }

    // Stores a pair as the newest. A refusal leaves the list as it was.
    pub fn store(&mut self, pair: Pair, clock: u32) -> Result<(), StoreFault>
        ensures value { result ≡ store_outcome pair (opened self.old) }
        ensures after { opened self.new ≡ (if is_ok result then stored_last (entry pair clock) (opened self.old) else opened self.old) }
    {
        if self.find(pair).is_some() {
            return Err(StoreFault::Known);
        }
        let count = self.count;
        if count >= OPEN_CAPACITY {
            return Err(StoreFault::Full);
        }
        let entry = Entry {
            key: pair,
            stored: clock,
        };
        store(&mut self.entries[0..count + 1], entry);
        self.count += 1;
        Ok(())
    }

    // Removes a pair, and answers whether it was there. The others keep their order.
    pub fn remove(&mut self, pair: Pair) -> bool
        ensures value { result ≡ holds same_pair pair (opened self.old) }
        ensures after { opened self.new ≡ without (place same_pair pair (opened self.old)) (opened self.old) }
    {
        let Some(at) = self.find(pair) else {
            return false;
        };
        let count = self.count;
        remove(&mut self.entries[0..count], at);
        self.count -= 1;
        true
    }

    // Removes all pairs, and answers how many went.
    pub fn clear(&mut self) -> usize
        ensures count { result ≡ length (opened self.old) }
        ensures after { opened self.new ≡ [] }
    {
        let count = self.count;
        self.count = 0;
        count
    }

    // Removes what was stored a period ago or more, and answers how many went.
    // The others keep their order.
    // Kept: each list is a plain struct of its own kind of key, by a rule of the project.
    pub fn expire(&mut self, expiry: Expiry) -> usize
        ensures count { result ≡ gone expiry (opened self.old) }
        ensures after { opened self.new ≡ left expiry (opened self.old) }
    {
        let count = self.count;
        let gone = expire(&mut self.entries[0..count], expiry);
        self.count -= gone;
        gone
    }
}
