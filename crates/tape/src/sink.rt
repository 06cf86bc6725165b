// Where the octets of a warning go that is read without memory of its own:
// nowhere, when it is only judged, or to lent memory.
ghost use Rattle.std.specs.Prelude.{◌≡◌, ℕ, ◌+◌, ◌≤◌, List, [], ◌++◌, length};

use crate::output::Output;

pub trait Sink {
    // Whether it has room for a number of octets.
    ghost fits: { Self → ℕ → Type 0 };

    // What taking octets makes of it.
    ghost took: { Self → List ℕ → Self → Type 0 };

    fn take(&mut self, octets: &[u8])
        requires { fits self.old (length octets.now) }
        ensures { took self.old octets.now self.new };

    // The laws, which each type with this trait proves.
    ghost fits_less: { (s : Self) (m n : ℕ) → m ≤ n → fits s n → fits s m };

    ghost fits_after: { (s t : Self) (xs : List ℕ) (n : ℕ) → fits s (length xs + n) → took s xs t → fits t n };

    ghost takes_none: { (s : Self) → took s [] s };

    ghost takes_more: { (s t u : Self) (xs ys : List ℕ) → fits s (length xs + length ys) → took s xs t → took t ys u → took s (xs ++ ys) u };
}

// Octets that are only judged.
#[derive(Drop)]
pub struct Judged;

impl Sink for Judged {
    ghost fits = { λ s n. Unit {0} };

    ghost took = { λ s xs t. Unit {0} };

    ghost fits_less = { λ s m n h k. tt };

    ghost fits_after = { λ s t xs n h k. tt };

    ghost takes_none = { λ s. tt };

    ghost takes_more = { λ s t u xs ys h k l. tt };

    fn take(&mut self, _octets: &[u8]) {}
}

// Lent memory that is filled.
impl<'m> Sink for Output<'m> {
    ghost use Rattle.std.proofs.Common.{arith, length-append, sym, refl, ap, ◌∙◌};
    ghost use Rattle.octets.proofs.Writes.{written_none, length-written, then-written};
    ghost use Rattle.tape.specs.Writing.{HasPut};

    ghost fits = { λ s n. s.at + n ≤ length s.memory.now };

    ghost took = { HasPut };

    ghost fits_less = { λ s m n h k. Prim.omega arith };

    ghost fits_after = { λ s t xs n h k. let l = ap length k.1 ∙ length-written s.memory.now xs s.at (Prim.omega arith) in Prim.omega (arith, l, k.0) };

    ghost takes_none = { λ s. (Prim.omega arith, sym (written_none s.memory.now s.at), refl) };

    ghost takes_more = { λ s t u xs ys h k l. (Prim.omega (arith, length-append xs ys, k.0, l.0), then-written s.memory.now t.memory.now u.memory.now xs ys s.at t.at k.1 l.1 k.0 (Prim.omega arith), l.2 ∙ k.2) };

    fn take(&mut self, octets: &[u8]) {
        self.put(octets);
    }
}
