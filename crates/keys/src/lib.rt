// Lists of keys with the clock of their storing: one text for every kind of key.
// A list is kept in the order of storing, the oldest entry first.
#![tactic(auto)]

ghost use Rattle.std.specs.Prelude.{◌≡◌, ℕ, ◌+◌, ◌-◌, ◌<◌, ◌≤◌, Bool, true, length, take, IfSome, Decides, slice_index_or};
ghost use Rattle.std.specs.List.{remove};
ghost use Rattle.keys.specs.Entries.{entry, place, Found, count_of, oldest_place, stored_last, old, gone, left};

pub mod kinds;
pub mod memory;
pub mod numbers;
pub mod open_list;
pub mod remembered;

// What tells entries apart, and which of them belong together.
pub trait Key: Copy {
    // Whether all parts agree.
    ghost same: { Self → Self → Bool };

    // Whether two keys are of one group.
    ghost grouped: { Self → Self → Bool };

    fn is(&self, other: &Self) -> bool
        ensures { result ≡ same self.now other.now };

    fn is_grouped_with(&self, other: &Self) -> bool
        ensures { result ≡ grouped self.now other.now };

    // The laws, which each type with this trait proves.
    ghost decides: { (x y : Self) → Decides (same x y) (x ≡ y) };

    ghost itself: { (x : Self) → grouped x x ≡ true };

    ghost together: { (x y z : Self) → grouped x y ≡ true → grouped x z ≡ grouped y z };
}

// A key with the clock of its storing.
#[derive(Clone, Copy)]
pub struct Entry<K> {
    pub key: K,
    pub stored: u32,
}

// When entries go: at a clock, what was stored a period ago or more.
#[derive(Clone, Copy, PartialEq, Eq, Debug)]
pub struct Expiry {
    pub clock: u32,
    pub period: u32,
}

impl Expiry {
    // Whether an entry goes. One that was stored after the clock has the age 0.
    pub fn takes<K>(self, entry: &Entry<K>) -> bool
        ensures { result ≡ old self entry.now }
    {
        self.clock.saturating_sub(entry.stored) >= self.period
    }
}

// Where the key stands.
// Kept: a slice and a key are the two arguments of this and the other searches; a struct of both would be made for one call.
pub fn find<K: Key>(xs: &[Entry<K>], key: &K) -> Option<usize>
    ensures value { result ≡ place K.same key.now xs.now }
    ensures found { Found key.now xs.now result }
{
    xs.iter().position(|held| key.is(&held.key))
}

// Where the oldest entry stands.
pub fn oldest<K: Key>(xs: &[Entry<K>]) -> Option<usize>
    ensures value { result ≡ oldest_place xs.now }
    ensures within { IfSome result (λ i. i < length xs.now) }
{
    if xs.is_empty() { None } else { Some(0) }
}

// Where the oldest entry of the key's group stands.
pub fn oldest_of_group<K: Key>(xs: &[Entry<K>], key: &K) -> Option<usize>
    ensures value { result ≡ place K.grouped key.now xs.now }
    ensures within { IfSome result (λ i. i < length xs.now) }
{
    xs.iter().position(|held| key.is_grouped_with(&held.key))
}

// How many entries are of the key's group.
pub fn count_of_group<K: Key>(xs: &[Entry<K>], key: &K) -> usize
    ensures { result ≡ count_of K.grouped key.now xs.now }
{
    xs.iter()
        .filter(|held| key.is_grouped_with(&held.key))
        .count()
}

// Stores an entry as the newest, in the last place of the slice, which is free.
// Kept: that there is a place is asked in a clause, since the type of a slice has no length.
pub fn store<K: Key>(xs: &mut [Entry<K>], entry: Entry<K>)
    requires { 0 < length xs.old }
    ensures { xs.new ≡ stored_last entry (take (length xs.old - 1) xs.old) }
{
    let last = xs.len() - 1;
    xs[last] = entry;
}

// Takes out the entry at `at`; those after it move one place down.
pub fn remove<K: Key>(xs: &mut [Entry<K>], at: usize)
    requires { at < length xs.old }
    ensures { take (length xs.old - 1) xs.new ≡ remove xs.old at }
{
    xs[at..].rotate_left(1);
}

// The entry at `at` becomes the newest, stored at the clock.
pub fn renew<K: Key>(xs: &mut [Entry<K>], at: usize, clock: u32)
    requires { at < length xs.old }
    ensures { (d : Entry K) → xs.new ≡ stored_last (entry (slice_index_or xs.old at d).key clock) (remove xs.old at) }
{
    let key = xs[at].key;
    remove(xs, at);
    store(xs, Entry { key, stored: clock });
}

// Takes out what goes by expiry, and answers how many went.
// The others stand at the start, in their order.
pub fn expire<K: Key>(xs: &mut [Entry<K>], expiry: Expiry) -> usize
    ensures count { result ≡ gone expiry xs.old }
    ensures within { result ≤ length xs.old }
    ensures after { take (length xs.old - result) xs.new ≡ left expiry xs.old }
{
    let mut went = 0;
    // Kept: a loop that tests each age and counts what goes is a rule of the project; an iterator would hold the slice that it writes.
    for i in 0..xs.len() {
        let entry = xs[i];
        if expiry.takes(&entry) {
            went += 1;
        } else {
            xs[i - went] = entry;
        }
    }
    went
}
