// Edges of the two lists.
ghost use Rattle.std.specs.Prelude.{nat_eq};
ghost use Rattle.std.proofs.Common.{rules};

use keys::kinds::NetworkPair;
use keys::memory::Memory;
use keys::numbers::EXPIRY_PERIOD;
use keys::open_list::{OpenList, StoreFault};
use keys::remembered::RememberedList;
use keys::{Entry, Expiry, Key, find};
use std::test::Fail;
use warning::Pair;
use warning::network::Network;

fn pair(serial: u16) -> Pair {
    Pair {
        identifier: 4370,
        serial,
    }
}

fn primary(mcc: u16, digits: u8, serial: u16) -> Result<NetworkPair, Fail> {
    let Some(network) = Network::new(mcc, digits, 1) else {
        return Err(Fail::new("no network"));
    };
    let pair = pair(serial);
    Ok(NetworkPair { network, pair })
}

fn three_hours_at(clock: u32) -> Expiry {
    Expiry {
        clock,
        period: EXPIRY_PERIOD,
    }
}

#[test]
fn eight_are_open(rt: HostRuntime) {
    let mut open = OpenList::new();
    for serial in 0..8 {
        assert_eq!(rt; open.store(pair(serial), 5), Ok(()));
    }
    assert_eq!(rt; open.store(pair(8), 5), Err(StoreFault::Full));
    assert_eq!(rt; open.store(pair(0), 5), Err(StoreFault::Known));
    assert!(rt; open.remove(pair(3)));
    assert!(rt; !open.remove(pair(3)));
    assert_eq!(rt; open.find(pair(4)), Some(3));
    assert_eq!(rt; open.store(pair(8), 5), Ok(()));
    assert_eq!(rt; open.clear(), 8);
    assert_eq!(rt; open.len(), 0);
}

#[test]
fn an_entry_goes_at_the_period(rt: HostRuntime) {
    let mut open = OpenList::new();
    assert_eq!(rt; open.store(pair(1), 100), Ok(()));
    assert_eq!(rt; open.store(pair(2), 101), Ok(()));
    assert_eq!(rt;
        open.expire(Expiry {
            clock: 0,
            period: 1
        }),
        0,
        "stored after the clock"
    );
    assert_eq!(rt; open.expire(three_hours_at(99 + EXPIRY_PERIOD)), 0);
    assert_eq!(rt; open.expire(three_hours_at(100 + EXPIRY_PERIOD)), 1);
    assert_eq!(rt; open.find(pair(2)), Some(0));
}

#[test]
fn the_older_of_a_network_makes_way(rt: HostRuntime) -> Result<(), Fail> {
    let mut list = RememberedList::new();
    assert_eq!(rt; list.remember(primary(1, 2, 0)?, 7), Memory::New);
    for mcc in 1..12 {
        assert_eq!(rt; list.remember(primary(mcc, 3, 0)?, 7), Memory::New);
    }
    assert_eq!(rt; list.len(), 12);
    assert_eq!(rt; list.remember(primary(1, 3, 1)?, 7), Memory::New);
    assert!(rt; !list.remembers(primary(1, 2, 0)?), "the oldest of all");
    assert!(rt; list.remembers(primary(1, 3, 0)?));
    assert_eq!(rt; list.remember(primary(1, 3, 0)?, 7), Memory::Known);
    assert_eq!(rt; list.remember(primary(1, 3, 2)?, 7), Memory::New);
    assert!(rt;
        !list.remembers(primary(1, 3, 1)?),
        "the older of the network"
    );
    assert!(rt; list.remembers(primary(2, 3, 0)?));
    assert_eq!(rt; list.len(), 12);
    Ok(())
}

// A key that has no `==`. Each is a group of its own.
#[derive(Clone, Copy)]
struct Tag {
    number: u8,
}

impl Key for Tag {
    ghost same = { λ x y. nat_eq x.number y.number };

    ghost grouped = { λ x y. nat_eq x.number y.number };

    ghost decides = { Prim.search rules };

    ghost itself = { Prim.search rules };

    ghost together = { Prim.search rules };

    fn is(&self, other: &Tag) -> bool {
        self.number == other.number
    }

    fn is_grouped_with(&self, other: &Tag) -> bool {
        self.is(other)
    }
}

#[test]
fn a_key_needs_no_equality(rt: HostRuntime) {
    let held = [1, 2, 3].map(|number| Entry {
        key: Tag { number },
        stored: 0,
    });
    assert_eq!(rt; find(&held, &Tag { number: 2 }), Some(1));
    assert_eq!(rt; find(&held, &Tag { number: 4 }), None);
}
