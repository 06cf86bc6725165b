// Tests of the outlets at the edges of the rules.
#![tactic(auto)]

#[cfg(test)]
mod tests {
    use outlet::passing::pass;
    use outlet::{Outlet, OutletFault};
    use rack::Rack;
    use std::process::Abort;
    use tape_outlet::TapeOutlet;
    use warning::{Outline, Pair, Warning, WarningFault};

    fn absent<'a>() -> Option<&'a [u8]> {
        None
    }

    fn pair(serial: u16) -> Pair {
        Pair {
            identifier: 4370,
            serial,
        }
    }

    fn primary<'a>(serial: u16, security: Option<&'a [u8]>) -> Warning<&'a [u8]> {
        Warning::Primary {
            pair: pair(serial),
            warning_type: 256,
            security,
        }
    }

    fn message<'a>(
        block: u8,
        serial: u16,
        message: &'a [u8],
        area: Option<&'a [u8]>,
    ) -> Warning<&'a [u8]> {
        Warning::Message {
            block,
            pair: pair(serial),
            coding: 15,
            message,
            area,
        }
    }

    fn message_outline(serial: u16, message: usize, area: Option<usize>) -> Outline {
        Outline::Message {
            block: 12,
            pair: pair(serial),
            coding: 15,
            message,
            area,
        }
    }

    fn primary_outline(serial: u16, security: Option<usize>) -> Outline {
        Outline::Primary {
            pair: pair(serial),
            warning_type: 256,
            security,
        }
    }

    // Warnings leave in the order in which they came, each with its octets.
    fn in_order<O: Outlet>(rt: &impl Abort, outlet: &mut O) {
        let octets = [1u8, 2, 3];
        let area = [4u8, 5];
        let security = [6u8; 50];
        let mut buffer = [9u8; 16_384];
        let free = outlet.free();
        assert_eq!(rt; outlet.first(), None);
        assert_eq!(rt; outlet.give(message(12, 1, &octets, Some(&area))), Ok(()));
        assert_eq!(rt; outlet.give(primary(2, Some(&security))), Ok(()));
        assert_eq!(rt; outlet.give(primary(3, absent())), Ok(()));
        assert_eq!(rt; outlet.first(), Some(message_outline(1, 3, Some(2))));
        assert_eq!(rt;
            outlet.take(&mut buffer),
            Ok(message_outline(1, 3, Some(2)))
        );
        assert_eq!(rt; buffer[2], 3);
        assert_eq!(rt; buffer[4], 5);
        assert_eq!(rt; buffer[5], 9);
        assert_eq!(rt; outlet.take(&mut buffer), Ok(primary_outline(2, Some(50))));
        assert_eq!(rt; buffer[49], 6);
        assert_eq!(rt; buffer[50], 9);
        assert_eq!(rt; outlet.take(&mut buffer), Ok(primary_outline(3, None)));
        assert_eq!(rt; buffer[0], 6);
        assert_eq!(rt; outlet.take(&mut buffer), Err(OutletFault::Empty));
        assert_eq!(rt; outlet.free(), free);
    }

    #[test]
    fn rack_keeps_the_order(rt: HostRuntime) {
        in_order(&rt, &mut Rack::new());
    }

    #[test]
    fn tape_keeps_the_order(rt: HostRuntime) {
        in_order(&rt, &mut TapeOutlet::new());
    }

    // What is no warning is refused by its first fault, and nothing is held.
    fn no_warning<O: Outlet>(rt: &impl Abort, outlet: &mut O) {
        let octets = [1u8; 16_385];
        assert_eq!(rt;
            outlet.give(message(10, 1, &octets, Some(&octets))),
            Err(OutletFault::NoWarning(WarningFault::Block(10)))
        );
        assert_eq!(rt;
            outlet.give(message(11, 1, &octets, Some(&octets))),
            Err(OutletFault::NoWarning(WarningFault::Area))
        );
        assert_eq!(rt;
            outlet.give(message(11, 1, &octets, absent())),
            Err(OutletFault::NoWarning(WarningFault::TooLong(16_385)))
        );
        assert_eq!(rt;
            outlet.give(primary(1, Some(&octets[0..49]))),
            Err(OutletFault::NoWarning(WarningFault::Security(49)))
        );
        assert_eq!(rt;
            outlet.cost(primary_outline(1, Some(0))),
            Err(WarningFault::Security(0))
        );
        assert_eq!(rt; outlet.first(), None);
    }

    #[test]
    fn rack_refuses_what_is_no_warning(rt: HostRuntime) {
        no_warning(&rt, &mut Rack::new());
    }

    #[test]
    fn tape_refuses_what_is_no_warning(rt: HostRuntime) {
        no_warning(&rt, &mut TapeOutlet::new());
    }

    // The longest warning passes through an empty outlet; a short buffer is
    // refused first.
    fn longest<O: Outlet>(rt: &impl Abort, outlet: &mut O) {
        let octets = [7u8; 16_384];
        let mut buffer = [0u8; 16_385];
        let w = message(12, 1, &octets[0..1], Some(&octets[1..16_384]));
        assert_eq!(rt;
            outlet.take(&mut buffer[0..16_383]),
            Err(OutletFault::Buffer(16_383))
        );
        assert_eq!(rt;
            pass(outlet, w, &mut buffer),
            Ok(message_outline(1, 1, Some(16_383)))
        );
        assert_eq!(rt; buffer[16_383], 7);
        assert_eq!(rt; buffer[16_384], 0);
    }

    #[test]
    fn rack_takes_the_longest(rt: HostRuntime) {
        longest(&rt, &mut Rack::new());
    }

    #[test]
    fn tape_takes_the_longest(rt: HostRuntime) {
        longest(&rt, &mut TapeOutlet::new());
    }

    #[test]
    fn rack_has_three_places(rt: HostRuntime) {
        let mut rack = Rack::new();
        let mut buffer = [0u8; 16_384];
        assert_eq!(rt; rack.give(primary(1, absent())), Ok(()));
        assert_eq!(rt; rack.give(primary(2, absent())), Ok(()));
        assert_eq!(rt; rack.give(primary(3, absent())), Ok(()));
        assert_eq!(rt;
            rack.give(primary(4, absent())),
            Err(OutletFault::Full { cost: 1, free: 0 })
        );
        assert_eq!(rt; rack.take(&mut buffer), Ok(primary_outline(1, None)));
        assert_eq!(rt; rack.give(primary(5, absent())), Ok(()));
        assert_eq!(rt; rack.take(&mut buffer), Ok(primary_outline(2, None)));
        assert_eq!(rt; rack.take(&mut buffer), Ok(primary_outline(3, None)));
        assert_eq!(rt; rack.take(&mut buffer), Ok(primary_outline(5, None)));
    }

    #[test]
    fn tape_is_full_by_octets(rt: HostRuntime) {
        let octets = [7u8; 16_384];
        let mut tape = TapeOutlet::new();
        assert_eq!(rt; tape.give(message(12, 1, &octets, absent())), Ok(()));
        assert_eq!(rt; tape.free(), 15_348);
        assert_eq!(rt;
            tape.give(message(12, 2, &octets, absent())),
            Err(OutletFault::Full {
                cost: 17_420,
                free: 15_348,
            })
        );
        assert_eq!(rt; tape.tape().len(), 17_420);
    }
}
