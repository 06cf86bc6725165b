// The length of a part that may be absent, as a word.
#![tactic(auto)]

ghost use Rattle.std.specs.Prelude.{Some};
ghost use Rattle.words.specs.Parts.{part_text, PartRead};

use std::fmt;
use std::num::ParseIntError;
use std::str::FromStr;

// A dash stands for an absent part.
#[derive(Clone, Copy, PartialEq, Eq, Debug)]
pub struct PartLength(pub Option<usize>);

impl FromStr for PartLength {
    type Err = ParseIntError;

    ghost from_str_gives = { PartRead };

    fn from_str(word: &str) -> Result<PartLength, ParseIntError> {
        match word {
            "-" => Ok(PartLength(None)),
            length => Ok(PartLength(Some(length.parse()?))),
        }
    }
}

impl fmt::Display for PartLength {
    ghost output = { λ p. Some (part_text p) };

    fn fmt<W: fmt::Write>(&self, f: &mut fmt::Formatter<W>) -> fmt::Result {
        match self.0 {
            Some(length) => write!(f, "{length}"),
            None => write!(f, "-"),
        }
    }
}
