// What a pool asks for single counts of octets.
ghost use Rattle.std.specs.Prelude.{◌≡◌, [], ◌∷◌, Ok, Err};
ghost use Rattle.store.specs.declared.StoreFault.TheVariants.{TooLong};
ghost use Rattle.instances.specs.Costs.{PoolCosts};

use pool::Pool;
use store::{Store, StoreFault};

// The costs of 0, 32, 33, 256 and 257 octets, of which the last are too many.
pub fn pool_costs() -> [Result<usize, StoreFault>; 5]
    ensures answers { result ≡ Ok 1 ∷ Ok 1 ∷ Ok 2 ∷ Ok 8 ∷ Err (TooLong 257) ∷ [] }
    ensures table { PoolCosts }
{
    let pool = Pool::new();
    [
        pool.cost(0),
        pool.cost(32),
        pool.cost(33),
        pool.cost(256),
        pool.cost(257),
    ]
}
