// Octets in lent memory: a run of octets is written at a place.
#![tactic(auto)]

ghost use Rattle.std.specs.Prelude.{◌≡◌, ◌+◌, ◌≤◌, length};
ghost use Rattle.octets.specs.Octets.{written};

// Writes the octets at the place `at`, where they have to fit, and answers
// the place after them. All other memory stays as it was.
pub fn put(memory: &mut [u8], at: usize, octets: &[u8]) -> usize
    requires { at + length octets.now ≤ length memory.old }
    ensures next { result ≡ at + length octets.now }
    ensures after { memory.new ≡ written at octets.now memory.old }
{
    let next = at + octets.len();
    memory[at..next].copy_from_slice(octets);
    next
}
