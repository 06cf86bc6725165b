// The operands of the tape's commands.
ghost use Rattle.std.specs.Prelude.{◌≡◌, ◌≤◌, nat_le};
ghost use Rattle.warning.specs.Rules.{carries_message};
ghost use Rattle.tape.specs.Cursors.{gave, gave_as, flag_number};
ghost use Rattle.tape.specs.Reading.{octet, pair_operands, data_operands};

use crate::cursor::Cursor;
use crate::fault::TapeFault;
use crate::numbers::*;
use warning::{Pair, is_message_block};

impl<'a> Cursor<'a> {
    // Identifier and serial number.
    #[tactic(auto, unfolding(crate::specs::Reading::pair_operands))]
    pub fn pair(&mut self) -> Result<Pair, TapeFault>
        ensures { gave result self.new ≡ pair_operands self.old }
    {
        let identifier = self.number()?;
        let serial = self.number()?;
        Ok(Pair { identifier, serial })
    }

    // A block that carries messages.
    pub fn block(&mut self) -> Result<u8, TapeFault>
        ensures { gave result self.new ≡ octet carries_message self.old }
    {
        self.octet_if(is_message_block)
    }

    // A flag: 0, or 1 where that may be.
    pub fn flag(&mut self, may_be_set: bool) -> Result<bool, TapeFault>
        ensures { gave_as flag_number result self.new ≡ octet (λ flag. nat_le flag (flag_number may_be_set)) self.old }
    {
        let flag = self.octet_if(|flag| flag <= u8::from(may_be_set))?;
        Ok(flag == 1)
    }

    // A data command with a count that is known.
    #[tactic(auto, unfolding(crate::specs::Reading::data_operands))]
    pub fn data(&mut self, count: usize) -> Result<&'a [u8], TapeFault>
        requires { count ≤ 32 }
        ensures { gave_as (λ xs. xs.now) result self.new ≡ data_operands count self.old }
    {
        self.octet_if(|octet| octet == DATA)?;
        self.octet_if(|octet| usize::from(octet) == count)?;
        let octets = self.padded(DATA_OCTETS, count)?;
        Ok(&octets[..count])
    }
}
