// Lent memory that is filled, octets after octets.
ghost use Rattle.tape.specs.Writing.{HasRoom, HasPut};

use octets::put;

// Lent memory, and the place in it where the next octets go.
// Kept: the place beside the memory, since a write answers the place after it.
#[derive(Drop)]
pub struct Output<'m> {
    pub memory: &'m mut [u8],
    pub at: usize,
}

impl Output<'_> {
    // Octets, which have to fit.
    pub fn put(&mut self, octets: &[u8])
        requires { HasRoom self.old octets.now }
        ensures { HasPut self.old octets.now self.new }
    {
        self.at = put(self.memory, self.at, octets);
    }
}
