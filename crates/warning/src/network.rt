// A network, by the codes that name it.
ghost use Rattle.std.specs.Prelude.{◌≡◌, true, false, MatchOption};
ghost use Rattle.warning.specs.Networks.{mnc_end, is_network};

use crate::numbers::*;

// The mobile country code, and the mobile network code with its count of
// digits: 01 and 001 are two networks.
// Kept: the count is a number by the rules, as a cell sends it.
#[derive(Clone, Copy, PartialEq, Eq, Debug)]
pub struct Network {
    pub mcc: u16,
    pub digits: u8,
    pub mnc: u16,
    ghost valid: { is_network mcc digits mnc ≡ true },
}

// The first number that has more digits than a network code may have.
fn mnc_end(digits: u8) -> u16
    ensures { result ≡ mnc_end digits }
{
    match digits {
        2 => 100,
        3 => 1000,
        _ => 0,
    }
}

impl Network {
    // The network of three codes, if they name one.
    pub fn new(mcc: u16, digits: u8, mnc: u16) -> Option<Network>
        ensures { MatchOption result (is_network mcc digits mnc ≡ false) (λ n. (n.mcc ≡ mcc) × (n.digits ≡ digits) × (n.mnc ≡ mnc)) }
    {
        if mcc <= MOST_MCC && mnc < mnc_end(digits) {
            Some(Network { mcc, digits, mnc })
        } else {
            None
        }
    }
}
