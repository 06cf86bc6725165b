// The lines that list a tape.
#![tactic(auto)]

ghost use Rattle.std.specs.Prelude.{◌≡◌, Some};
ghost use Rattle.listing.specs.Lines.{line_text, security_text, same_text};

pub mod list;

use std::fmt;
use tape::fault::TapeFault;
use warning::{Outline, Refusal};
use words::PartLength;

// A line of a listing.
#[derive(Clone, Copy, PartialEq, Eq, Debug)]
pub enum Line {
    // a warning that stands at an offset
    Entry {
        offset: usize,
        outline: Outline,
    },
    // the end of a tape that could be read
    End {
        warnings: usize,
        octets: usize,
        same: bool,
    },
    // the end of one that could not
    Refused(TapeFault),
}

impl fmt::Display for Line {
    ghost output = { λ line. Some (line_text line) };

    fn fmt<W: fmt::Write>(&self, f: &mut fmt::Formatter<W>) -> fmt::Result {
        match *self {
            Line::Entry { offset, outline } => match outline {
                Outline::Primary {
                    pair,
                    warning_type,
                    security,
                } => {
                    let security = security_text(security);
                    write!(f, "{offset} primary {} {}", pair.identifier, pair.serial)?;
                    write!(f, " type {warning_type} security {security}")
                }
                Outline::Message {
                    block,
                    pair,
                    coding,
                    message,
                    area,
                } => {
                    let area = PartLength(area);
                    write!(
                        f,
                        "{offset} message {block} {} {}",
                        pair.identifier, pair.serial
                    )?;
                    write!(f, " coding {coding} octets {message} area {area}")
                }
            },
            Line::End {
                warnings,
                octets,
                same,
            } => {
                let same = same_text(same);
                write!(f, "end {warnings} warnings {octets} octets {same}")
            }
            Line::Refused(fault) => write!(f, "{}", Refusal::from(fault)),
        }
    }
}

// Whether security information is present.
// Kept: two words for the text of a line; a type that prints them would be longer.
fn security_text(security: Option<usize>) -> &'static str
    ensures { result.now ≡ security_text security }
{
    match security {
        Some(_) => "yes",
        None => "no",
    }
}

// Whether the tape was written back as it was.
// Kept: likewise.
fn same_text(same: bool) -> &'static str
    ensures { result.now ≡ same_text same }
{
    if same { "same" } else { "different" }
}
