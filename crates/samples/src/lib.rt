// Octets for the programs that are compared with the model: patterns to put
// in, and one number for what came out.
#![tactic(auto)]

ghost use Rattle.std.specs.Prelude.{◌≡◌, IfOk, vec_items};
ghost use Rattle.std.specs.Option.{option_map};
ghost use Rattle.samples.specs.Samples.{octet_at, pattern, weighted_sum};

use std::alloc::{AllocError, Global};

pub mod numbers;

pub use numbers::{AREA_SEED, UNTOUCHED};

// Octet i of the pattern with a seed.
fn octet_at(seed: usize, i: usize) -> u8
    ensures { result ≡ octet_at seed i }
{
    ((seed % 256 + 7 * (i % 256) + i / 32 % 256) % 256) as u8
}

// The first octets of the pattern with a seed.
pub fn pattern(heap: Global, seed: usize, count: usize) -> Result<Vec<u8>, AllocError>
    ensures { IfOk result (λ v. v.items ≡ pattern seed count) }
{
    (0..count).map(|i| octet_at(seed, i)).collect(heap)
}

// The same for a part that may be absent.
pub fn optional_pattern(
    heap: Global,
    seed: usize,
    count: Option<usize>,
) -> Result<Option<Vec<u8>>, AllocError>
    ensures { IfOk result (λ part. option_map (λ v. vec_items v) part ≡ option_map (pattern seed) count) }
{
    count.map(|count| pattern(heap, seed, count)).transpose()
}

// One number that depends on each octet and its place.
pub fn weighted_sum(memory: &[u8]) -> usize
    ensures { result ≡ weighted_sum memory.now }
{
    let mut sum = 0usize;
    for (i, octet) in memory.iter().enumerate() {
        sum = sum.wrapping_add((i % 251 + 1) * usize::from(*octet));
    }
    sum
}

#[cfg(test)]
mod tests {
    use super::{optional_pattern, pattern, weighted_sum};

    #[test]
    fn octets_of_a_pattern(rt: HostRuntime) {
        let Ok(octets) = pattern(rt.alloc(), 250, 34) else {
            assert!(rt; false, "no memory");
            return;
        };
        assert!(rt; octets.as_slice()[0..3] == [250, 1, 8]);
        assert_eq!(rt; octets.len(), 34);
        assert_eq!(rt; octets.as_slice()[33], 226);
        assert_eq!(rt; weighted_sum(&octets.as_slice()[0..3]), 276);
        assert!(rt; matches!(optional_pattern(rt.alloc(), 1, None), Ok(None)));
        assert!(rt; matches!(optional_pattern(rt.alloc(), 1, Some(2)), Ok(Some(_))));
    }
}
