// Primaries of one network in one second.
ghost use Rattle.std.specs.Prelude.{◌≡◌};
ghost use Rattle.instances.specs.Primaries.{five_answers, FivePrimaries};

use keys::kinds::NetworkPair;
use keys::memory::Memory;
use keys::remembered::RememberedList;
use warning::Pair;
use warning::network::Network;

// Five primaries of one network, X, Y, X, Z and Y, at one clock.
pub fn five_primaries(network: Network, x: Pair, y: Pair, z: Pair, clock: u32) -> [Memory; 5]
    ensures answers { result ≡ five_answers network x y z clock }
    ensures table { FivePrimaries }
{
    let mut list = RememberedList::new();
    let first = list.remember(NetworkPair { network, pair: x }, clock);
    let second = list.remember(NetworkPair { network, pair: y }, clock);
    let third = list.remember(NetworkPair { network, pair: x }, clock);
    let fourth = list.remember(NetworkPair { network, pair: z }, clock);
    let fifth = list.remember(NetworkPair { network, pair: y }, clock);
    [first, second, third, fourth, fifth]
}
