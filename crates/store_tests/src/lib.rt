// Tests of the stores at the edges of the rules.
#![tactic(auto)]

#[cfg(test)]
mod tests {
    use berths::Berths;
    use pool::Pool;
    use std::process::Abort;
    use store::trial::try_two;
    use store::{Place, Segment, Store, StoreFault};

    fn at(slot: usize, number: u8) -> Place {
        Place { slot, number }
    }

    fn alone(message: &[u8]) -> Segment<&[u8]> {
        Segment {
            message,
            area: None,
        }
    }

    fn both<'a>(message: &'a [u8], area: &'a [u8]) -> Segment<&'a [u8]> {
        Segment {
            message,
            area: Some(area),
        }
    }

    // The last slot and the last number are there, the next ones are not.
    fn last_place<S: Store>(rt: &impl Abort, store: &mut S, slots: usize) {
        let octets = [7u8; 33];
        let last = slots.saturating_sub(1);
        assert_eq!(rt; store.slots(), slots);
        assert_eq!(rt;
            store.put(at(slots, 64), alone(&octets)),
            Err(StoreFault::NoSlot(slots))
        );
        assert_eq!(rt;
            store.put(at(last, 64), alone(&octets)),
            Err(StoreFault::NoNumber(64))
        );
        assert_eq!(rt; store.put(at(last, 63), alone(&octets)), Ok(()));
        assert_eq!(rt; store.is_held(at(last, 63)), Ok(true));
        assert_eq!(rt; store.is_held(at(last, 62)), Ok(false));
        assert_eq!(rt; store.is_held(at(last, 64)), Err(StoreFault::NoNumber(64)));
        assert_eq!(rt;
            store.put(at(last, 63), alone(&octets)),
            Err(StoreFault::Occupied)
        );
    }

    #[test]
    fn berths_have_three_slots(rt: HostRuntime) {
        last_place(&rt, &mut Berths::new(), 3);
    }

    #[test]
    fn pools_have_nine_slots(rt: HostRuntime) {
        last_place(&rt, &mut Pool::new(), 9);
    }

    // 256 octets are put, 257 are not, however they are divided.
    fn longest<S: Store>(rt: &impl Abort, store: &mut S, area: &[u8]) {
        let octets = [9u8; 257];
        assert_eq!(rt;
            store.put(at(0, 0), both(&octets, area)),
            Err(StoreFault::TooLong(258))
        );
        assert_eq!(rt;
            store.put(at(0, 0), both(&octets[0..256], area)),
            Err(StoreFault::TooLong(257))
        );
        assert_eq!(rt; store.put(at(0, 0), both(&octets[0..255], area)), Ok(()));
        assert_eq!(rt;
            store.equals(at(0, 0), both(&octets[0..255], area)),
            Ok(true)
        );
        assert_eq!(rt;
            store.equals(at(0, 0), both(&octets[0..256], area)),
            Ok(false)
        );
        assert_eq!(rt; store.equals(at(0, 0), both(&octets, area)), Ok(false));
        assert_eq!(rt; store.cost(257), Err(StoreFault::TooLong(257)));
    }

    #[test]
    fn berths_take_256_octets(rt: HostRuntime) {
        longest(&rt, &mut Berths::new(), &[1u8]);
    }

    #[test]
    fn pools_take_256_octets(rt: HostRuntime) {
        longest(&rt, &mut Pool::new(), &[1u8]);
    }

    // An empty area is no absent one.
    fn nothing_in_it<S: Store>(rt: &impl Abort, store: &mut S) {
        let empty: &[u8] = &[];
        assert_eq!(rt; store.put(at(1, 5), alone(empty)), Ok(()));
        assert_eq!(rt; store.put(at(1, 6), both(empty, empty)), Ok(()));
        assert_eq!(rt; store.units_of(1), Ok(2));
        assert_eq!(rt;
            store.lengths(at(1, 5)),
            Ok(Segment {
                message: 0,
                area: None,
            })
        );
        assert_eq!(rt;
            store.lengths(at(1, 6)),
            Ok(Segment {
                message: 0,
                area: Some(0),
            })
        );
        assert_eq!(rt; store.equals(at(1, 5), alone(empty)), Ok(true));
        assert_eq!(rt; store.equals(at(1, 5), both(empty, empty)), Ok(false));
        assert_eq!(rt; store.equals(at(1, 6), alone(empty)), Ok(false));
        assert_eq!(rt; store.equals(at(1, 6), both(empty, empty)), Ok(true));
        assert_eq!(rt;
            store.equals(at(1, 7), alone(empty)),
            Err(StoreFault::NotHeld)
        );
    }

    #[test]
    fn berths_keep_empty_segments(rt: HostRuntime) {
        nothing_in_it(&rt, &mut Berths::new());
    }

    #[test]
    fn pools_keep_empty_segments(rt: HostRuntime) {
        nothing_in_it(&rt, &mut Pool::new());
    }

    // The message and then the area are copied, and the rest stays.
    fn copied<S: Store>(rt: &impl Abort, store: &mut S) {
        let mut memory = [0u8; 7];
        assert_eq!(rt; store.put(at(0, 9), both(&[1, 2, 3], &[4, 5])), Ok(()));
        assert_eq!(rt;
            store.copy_out(at(0, 9), &mut memory[0..4]),
            Err(StoreFault::Memory(4))
        );
        assert_eq!(rt; store.copy_out(at(0, 9), &mut memory), Ok(()));
        assert!(rt; memory == [1, 2, 3, 4, 5, 0, 0]);
    }

    #[test]
    fn berths_copy_out(rt: HostRuntime) {
        copied(&rt, &mut Berths::new());
    }

    #[test]
    fn pools_copy_out(rt: HostRuntime) {
        copied(&rt, &mut Pool::new());
    }

    // A trial leaves the store as it was.
    fn tried<S: Store>(rt: &impl Abort, store: &mut S) {
        assert_eq!(rt; store.put(at(0, 0), alone(&[1])), Ok(()));
        assert_eq!(rt; try_two(store, 1, alone(&[2; 40]), alone(&[3; 50])), Ok(()));
        assert_eq!(rt; store.units_held(), 1);
        assert_eq!(rt; store.is_held(at(1, 0)), Ok(false));
        assert_eq!(rt; store.equals(at(0, 0), alone(&[1])), Ok(true));
    }

    #[test]
    fn berths_can_be_tried(rt: HostRuntime) {
        tried(&rt, &mut Berths::new());
    }

    #[test]
    fn pools_can_be_tried(rt: HostRuntime) {
        tried(&rt, &mut Pool::new());
    }

    // Fills a slot with the longest segments.
    fn fill(rt: &impl Abort, pool: &mut Pool, slot: usize) {
        let octets = [slot.min(9) as u8; 256];
        for number in 0..64u8 {
            assert_eq!(rt; pool.put(at(slot, number), alone(&octets)), Ok(()));
        }
    }

    #[test]
    fn a_pool_is_filled_and_emptied_often(rt: HostRuntime) {
        let mut pool = Pool::new();
        for round in 0..90usize {
            let slot = round % 9;
            fill(&rt, &mut pool, slot);
            assert_eq!(rt; pool.units_held(), 512);
            assert_eq!(rt;
                pool.put(at((slot + 1) % 9, 0), alone(&[1; 33])),
                Err(StoreFault::NoUnits { cost: 2, free: 0 })
            );
            assert_eq!(rt; pool.drop_slot(slot), Ok(()));
            assert_eq!(rt; pool.units_held(), 0);
        }
    }

    #[test]
    fn all_blocks_of_a_pool_serve_small_segments(rt: HostRuntime) {
        let mut pool = Pool::new();
        for slot in 0..8usize {
            for number in 0..64u8 {
                assert_eq!(rt; pool.put(at(slot, number), alone(&[number])), Ok(()));
            }
        }
        assert_eq!(rt; pool.units_of(7), Ok(64));
        assert_eq!(rt;
            pool.put(at(8, 0), alone(&[])),
            Err(StoreFault::NoUnits { cost: 1, free: 0 })
        );
        pool.drop_all();
        assert_eq!(rt; pool.units_held(), 0);
        fill(&rt, &mut pool, 8);
    }
}
