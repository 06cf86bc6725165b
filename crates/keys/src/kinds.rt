// The kinds of key.
ghost use Rattle.keys.specs.Kinds.{same_pair, same_network_pair, of_one_network};
ghost use Rattle.std.proofs.Common.{rules};
ghost use Rattle.keys.specs.Agree.{decides_network_pair};

use crate::Key;
use warning::Pair;
use warning::network::Network;

// The pair of an open warning. Each is a group of its own.
impl Key for Pair {
    ghost same = { same_pair };

    ghost grouped = { same_pair };

    ghost decides = { Prim.search rules };

    ghost itself = { Prim.search rules };

    ghost together = { Prim.search rules };

    fn is(&self, other: &Pair) -> bool {
        *self == *other
    }

    fn is_grouped_with(&self, other: &Pair) -> bool {
        self.is(other)
    }
}

// A primary with the network that broadcast it.
#[derive(Clone, Copy, PartialEq, Eq, Debug)]
pub struct NetworkPair {
    pub network: Network,
    pub pair: Pair,
}

// The pairs of one network are a group.
impl Key for NetworkPair {
    ghost same = { same_network_pair };

    ghost grouped = { of_one_network };

    ghost decides = { λ x y. decides_network_pair x y };

    ghost itself = { Prim.search rules };

    ghost together = { Prim.search rules };

    fn is(&self, other: &NetworkPair) -> bool {
        self == other
    }

    fn is_grouped_with(&self, other: &NetworkPair) -> bool {
        self.network == other.network
    }
}
