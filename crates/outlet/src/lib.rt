// An outlet of warnings: its meaning, its laws, its calls and their refusals.
#![tactic(auto)]

ghost use Rattle.std.specs.Prelude.{◌≡◌, ℕ, ◌≤◌, List, length, is_ok, if◌then◌else◌};
ghost use Rattle.warning.specs.Meaning.{said};
ghost use Rattle.warning.specs.Notice.{Notice, outline};
ghost use Rattle.outlet.specs.declared.OutletFault.TheVariants.{NoWarning};
ghost use Rattle.outlet.specs.Meaning.{Room, Lawful, Warnings, costs, units_free};
ghost use Rattle.outlet.specs.Outcomes.{give_outcome, with_newest, take_outcome, without_first, first_copied, first_of, cost_outcome};
ghost use Rattle.outlet.specs.Refusals.{of_outlet};

use warning::{Outline, Refusal, Values, Warning, WarningFault};

pub mod passing;
pub mod standing;

// Why an outlet refuses.
#[derive(Clone, Copy, PartialEq, Eq, Debug)]
pub enum OutletFault {
    NoWarning(WarningFault),
    // the units that are needed, and those that are free
    Full { cost: usize, free: usize },
    // the length of a buffer that is too short
    Buffer(usize),
    // nothing is held
    Empty,
}

impl From<WarningFault> for OutletFault {
    ghost from_gives = { λ f r. r ≡ NoWarning f };

    fn from(f: WarningFault) -> OutletFault {
        OutletFault::NoWarning(f)
    }
}

impl From<OutletFault> for Refusal {
    ghost from_gives = { λ f r. r ≡ of_outlet f };

    fn from(fault: OutletFault) -> Refusal {
        let (number, values) = match fault {
            OutletFault::NoWarning(fault) => return fault.into(),
            OutletFault::Full { cost, free } => (12, Values::Two(cost, free)),
            OutletFault::Buffer(length) => (1, Values::One(length)),
            OutletFault::Empty => (16, Values::Nothing),
        };
        Refusal { number, values }
    }
}

// Keeps warnings until they are taken, the oldest first.
pub trait Outlet {
    // The warnings held, the oldest first.
    ghost warnings: { Self → List Notice };

    // The units in all, and the cost of each warning.
    ghost room: { Self → Room };

    // Adds a warning as the newest.
    fn give(&mut self, w: Warning<&[u8]>) -> Result<(), OutletFault>
        ensures value { result ≡ give_outcome (room self.old) (warnings self.old) (outline (said w.entry)) }
        ensures after { warnings self.new ≡ (if is_ok result then with_newest (warnings self.old) (said w.entry) else warnings self.old) }
        ensures same { room self.new ≡ room self.old };

    // Removes the oldest warning. Its octets are copied to the start of the
    // buffer, the message and then the area, or the security information. The
    // rest of the buffer stays as it was.
    fn take(&mut self, buffer: &mut [u8]) -> Result<Outline, OutletFault>
        ensures value { result ≡ take_outcome (warnings self.old) (length buffer.old) }
        ensures after { warnings self.new ≡ (if is_ok result then without_first (warnings self.old) else warnings self.old) }
        ensures copied { buffer.new ≡ (if is_ok result then first_copied (warnings self.old) buffer.old else buffer.old) }
        ensures same { room self.new ≡ room self.old };

    // The oldest warning without its octets, if there is one.
    fn first(&self) -> Option<Outline>
        ensures { result ≡ first_of (warnings self.now) };

    // The units that are free.
    fn free(&self) -> usize
        ensures { result ≡ units_free (room self.now) (warnings self.now) };

    // The units that a warning costs.
    fn cost(&self, outline: Outline) -> Result<usize, WarningFault>
        ensures { result ≡ cost_outcome (room self.now) outline };

    // The laws, which each type with this trait proves.
    ghost lawful: { (o : Self) → Lawful (room o) };

    ghost within: { (o : Self) → costs (room o) (warnings o) ≤ (room o).total };

    ghost right: { (o : Self) → Warnings (warnings o) };
}
