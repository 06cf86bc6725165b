// Tests of the warnings' judging and of the tape, at the edges.
#![tactic(auto)]

#[cfg(test)]
mod tests {
    use std::alloc::{AllocError, Global};
    use std::process::Abort;
    use std::test::Fail;
    use tape::fault::*;
    use tape::heads::{copy_entry, read_entry, read_head};
    use tape::tapes::read;
    use tape::write::{cost, write};
    use tape::write_all::{append, write_all};
    use warning::network::Network;
    use warning::{Outline, Pair, Refusal, Values, Warning, WarningFault};

    const PAIR: Pair = Pair {
        identifier: 4370,
        serial: 7,
    };

    fn outline(block: u8, message: usize, area: Option<usize>) -> Outline {
        Outline::Message {
            block,
            pair: PAIR,
            coding: 15,
            message,
            area,
        }
    }

    // A message of octets that count up, and its tape.
    fn tape_of(
        heap: Global,
        block: u8,
        message: usize,
        area: Option<usize>,
    ) -> Result<Vec<u8>, Fail> {
        let mut octets = Vec::new(heap);
        for i in 0..message {
            octets.push((i & 0xff) as u8)?;
        }
        let mut tape = Vec::new(heap);
        match area {
            Some(n) => {
                let mut coordinates = Vec::new(heap);
                for i in 0..n {
                    coordinates.push((i & 0x7f) as u8)?;
                }
                let area = Some(coordinates.as_slice());
                add(&mut tape, block, octets.as_slice(), area)?;
            }
            None => add_without_area(&mut tape, block, octets.as_slice())?,
        }
        Ok(tape)
    }

    fn add<'a>(
        tape: &mut Vec<u8>,
        block: u8,
        message: &'a [u8],
        area: Option<&'a [u8]>,
    ) -> Result<(), Fail> {
        append(
            tape,
            Warning::Message {
                block,
                pair: PAIR,
                coding: 15,
                message,
                area,
            },
        )?;
        Ok(())
    }

    fn no_area<'a>() -> Option<&'a [u8]> {
        None
    }

    fn add_without_area(tape: &mut Vec<u8>, block: u8, message: &[u8]) -> Result<(), Fail> {
        add(tape, block, message, no_area())
    }

    #[test]
    fn costs(rt: HostRuntime) {
        for (message, area, octets) in [
            (0, None, 12),
            (0, Some(0), 12),
            (1, None, 46),
            (32, None, 46),
            (33, None, 80),
            (16, Some(16), 80),
            (16_384, None, 17_420),
            (16_384, Some(0), 17_420),
            (1, Some(16_383), 17_454),
            (16_383, Some(1), 17_454),
        ] {
            assert_eq!(rt; cost(outline(12, message, area)), Ok(octets));
        }
    }

    #[test]
    fn what_is_no_warning(rt: HostRuntime) {
        assert_eq!(rt;
            outline(10, 16_385, None).judge(),
            Err(WarningFault::Block(10))
        );
        assert_eq!(rt;
            outline(11, 16_385, Some(0)).judge(),
            Err(WarningFault::Area)
        );
        assert_eq!(rt;
            outline(12, 16_384, Some(1)).judge(),
            Err(WarningFault::TooLong(16_385))
        );
        assert_eq!(rt; outline(8, 0, Some(16_384)).judge(), Ok(()));
        assert_eq!(rt; outline(11, 16_384, None).judge(), Ok(()));
        assert_eq!(rt;
            outline(8, usize::MAX, Some(1)).judge(),
            Err(WarningFault::TooLong(usize::MAX))
        );
    }

    #[test]
    fn networks(rt: HostRuntime) {
        assert!(rt; Network::new(999, 3, 999).is_some());
        assert!(rt; Network::new(1000, 3, 0).is_none());
        assert!(rt; Network::new(1, 2, 100).is_none());
        assert!(rt; Network::new(1, 3, 1000).is_none());
        assert!(rt; Network::new(1, 1, 0).is_none());
        assert!(rt; Network::new(1, 4, 0).is_none());
    }

    // Reads a tape that holds one warning, and writes it back.
    fn one_and_back(rt: &impl Abort, heap: Global, tape: &[u8]) -> Result<(), Fail> {
        let Ok(warnings) = read(heap, tape) else {
            return Err(Fail::new("refused"));
        };
        assert_eq!(rt; warnings.len(), 1);
        let Ok(again) = write_all(heap, warnings.as_slice()) else {
            return Err(Fail::new("not written"));
        };
        assert!(rt; again.as_slice() == tape);
        Ok(())
    }

    #[test]
    fn lengths_and_back(rt: HostRuntime) -> Result<(), Fail> {
        let heap = rt.alloc();
        for (message, area) in [
            (0, None),
            (0, Some(0)),
            (31, Some(1)),
            (32, Some(32)),
            (33, Some(33)),
            (16_384, None),
            (16_384, Some(0)),
            (1, Some(16_383)),
            (8_192, Some(8_192)),
            (0, Some(16_384)),
        ] {
            let tape = tape_of(heap, 12, message, area)?;
            one_and_back(&rt, heap, tape.as_slice())?;
        }
        Ok(())
    }

    // What reading answers: the number of warnings, or the fault.
    fn outcome(heap: Global, tape: &[u8]) -> Result<usize, ReadError> {
        Ok(read(heap, tape)?.len())
    }

    #[test]
    fn every_truncation(rt: HostRuntime) -> Result<(), Fail> {
        let heap = rt.alloc();
        let tape = tape_of(heap, 8, 40, Some(5))?;
        for n in 0..tape.len() {
            let expected = if n == 0 {
                Ok(0)
            } else {
                Err(ReadError::Fault(TapeFault::Ended { offset: n }))
            };
            assert_eq!(rt; outcome(heap, &tape[0..n]), expected);
        }
        Ok(())
    }

    // Reads a tape with one octet changed.
    fn changed(
        heap: Global,
        tape: &[u8],
        at: usize,
        octet: u8,
    ) -> Result<Result<usize, ReadError>, AllocError> {
        let mut copy = Vec::from_slice(heap, tape)?;
        if at < copy.len() {
            copy[at] = octet;
        }
        Ok(outcome(heap, copy.as_slice()))
    }

    #[test]
    fn every_wrong_operand(rt: HostRuntime) -> Result<(), Fail> {
        let heap = rt.alloc();
        let tape = tape_of(heap, 12, 5, None)?;
        for (at, octet, offset) in [
            (0, 0x44, 0),
            (0, 0x54, 0),
            (1, 10, 1),
            (1, 0, 1),
            (7, 0x41, 7),
            (9, 2, 9),
            (10, 1, 10),
            (11, 1, 10),
            (12, 0x50, 12),
            (13, 4, 13),
            (13, 6, 13),
            (13, 32, 13),
            (19, 1, 14),
            (45, 1, 14),
        ] {
            let refused = ReadError::Fault(TapeFault::Unknown { offset });
            assert_eq!(rt; changed(heap, tape.as_slice(), at, octet)?, Err(refused));
        }
        Ok(())
    }

    #[test]
    fn a_full_memory(rt: HostRuntime) -> Result<(), Fail> {
        let mut memory = [7u8; 60];
        let octets = [1u8; 5];
        let w = Warning::Message {
            block: 12,
            pair: PAIR,
            coding: 15,
            message: octets.as_slice(),
            area: no_area(),
        };
        let Err(full) = write(&mut memory, 15, w) else {
            return Err(Fail::new("written"));
        };
        assert_eq!(rt;
            Refusal::from(full),
            Refusal {
                number: 12,
                values: Values::Two(46, 45),
            }
        );
        assert!(rt; memory[15] == 7);
        assert!(rt; write(&mut memory, 14, w).is_ok());
        assert!(rt; memory[13] == 7 && memory[14] == 0x4D);
        assert!(rt; write(&mut memory, 61, w).is_err());
        Ok(())
    }

    // A message of 46 octets on tape, and one of 114 after it.
    fn two_messages(heap: Global) -> Result<Vec<u8>, Fail> {
        let mut tape = tape_of(heap, 12, 5, None)?;
        let second = tape_of(heap, 8, 40, Some(5))?;
        tape.extend_from_slice(second.as_slice())?;
        Ok(tape)
    }

    #[test]
    fn one_from_an_offset(rt: HostRuntime) -> Result<(), Fail> {
        let heap = rt.alloc();
        let tape = two_messages(heap)?;
        let second = outline(8, 40, Some(5));
        assert_eq!(rt; read_head(tape.as_slice(), 46), Ok((second, 58)));
        let Ok((warning, after)) = read_entry(heap, tape.as_slice(), 46) else {
            return Err(Fail::new("refused"));
        };
        assert_eq!(rt; warning.as_warning().outline(), second);
        assert_eq!(rt; after, 160);
        let mut memory = [7u8; 16_384];
        assert_eq!(rt;
            copy_entry(tape.as_slice(), 46, &mut memory),
            Ok((second, 160))
        );
        assert!(rt; memory[0] == 0 && memory[39] == 39);
        assert!(rt; memory[40] == 0 && memory[44] == 4 && memory[45] == 7);
        Ok(())
    }

    #[test]
    fn none_from_an_offset(rt: HostRuntime) -> Result<(), Fail> {
        let heap = rt.alloc();
        let tape = two_messages(heap)?;
        let past = TapeFault::Ended { offset: 1000 };
        assert_eq!(rt; read_head(tape.as_slice(), 1000), Err(past));
        assert_eq!(rt;
            read_head(tape.as_slice(), 1),
            Err(TapeFault::Unknown { offset: 1 })
        );
        let mut memory = [7u8; 16_384];
        assert_eq!(rt; tape.len(), 160);
        let cut = TapeFault::Ended { offset: 159 };
        assert_eq!(rt; copy_entry(&tape[0..159], 46, &mut memory), Err(cut));
        assert!(rt; memory[0] == 7 && memory[39] == 7);
        Ok(())
    }
}
