// The rule of a memory: a key that is held is renewed, a new key is stored, and
// what makes way for it is the oldest of its group or the oldest of all.
ghost use Rattle.std.specs.Prelude.{◌≡◌, ℕ, ◌<◌, ◌≤◌, length, take, IfSome};
ghost use Rattle.keys.specs.Limits.{AtMost};
ghost use Rattle.keys.specs.Memory.{makes_way, room_for, remembered, memory_of};

use crate::{Entry, Key, count_of_group, find, oldest, oldest_of_group, remove, renew, store};

// Whether a key was held before it was remembered.
#[derive(Clone, Copy, PartialEq, Eq, Debug)]
pub enum Memory {
    Known,
    New,
}

// Which entry makes way for a new key.
pub fn place_to_free<K: Key>(
    xs: &[Entry<K>],
    most: usize,
    capacity: usize,
    key: &K,
) -> Option<usize>
    ensures value { result ≡ makes_way K.grouped most capacity key.now xs.now }
    ensures within { IfSome result (λ i. i < length xs.now) }
{
    if count_of_group(xs, key) >= most {
        oldest_of_group(xs, key)
    } else if xs.len() >= capacity {
        oldest(xs)
    } else {
        None
    }
}

// Removes what makes way for a new key from the first `count` entries, and answers how many
// stay. One of the places is then free.
fn make_room<K: Key>(xs: &mut [Entry<K>], count: usize, most: usize, key: &K) -> usize
    requires held { count ≤ length xs.old }
    requires some { 0 < length xs.old }
    requires group { 0 < most }
    ensures free { result < length xs.old }
    ensures count { result ≡ length (room_for K.grouped most (length xs.old) key.now (take count xs.old)) }
    ensures after { take result xs.new ≡ room_for K.grouped most (length xs.old) key.now (take count xs.old) }
{
    let capacity = xs.len();
    match place_to_free(&xs[..count], most, capacity, key) {
        Some(at) => {
            remove(&mut xs[..count], at);
            count - 1
        }
        None => count,
    }
}

// Remembers a key with its clock in the first `count` entries of a memory, and changes the count.
// The slice is all the memory has: its length is the capacity.
// Kept: by a rule of the project the array is lent as a slice of entries, so the count comes beside it.
pub fn remember<K: Key>(
    xs: &mut [Entry<K>],
    count: &mut usize,
    most: usize,
    entry: Entry<K>,
) -> Memory
    requires held { count.old ≤ length xs.old }
    requires some { 0 < length xs.old }
    requires group { 0 < most }
    ensures answer { result ≡ memory_of K.same entry.key (take count.old xs.old) }
    ensures after { take count.new xs.new ≡ remembered K.same K.grouped most (length xs.old) entry (take count.old xs.old) }
    ensures held { count.new ≤ length xs.old }
    ensures apart { AtMost 1 K.same (take count.old xs.old) → AtMost 1 K.same (take count.new xs.new) }
    ensures few { AtMost most K.grouped (take count.old xs.old) → AtMost most K.grouped (take count.new xs.new) }
{
    let held = *count;
    if let Some(at) = find(&xs[..held], &entry.key) {
        renew(&mut xs[..held], at, entry.stored);
        return Memory::Known;
    }
    let left = make_room(xs, held, most, &entry.key);
    *count = left + 1;
    store(&mut xs[..left + 1], entry);
    Memory::New
}
