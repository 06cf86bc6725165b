// A reader of a whole tape, and what it has read so far.
ghost use Rattle.std.specs.Prelude.{◌≡◌, ◌≤◌, true, map, length, take};
ghost use Rattle.warning.specs.Meaning.{owned};
ghost use Rattle.tape.specs.Format.{encode_all};
ghost use Rattle.tape.specs.Promises.{all_warnings};

use warning::WarningBuf;

// At all times, what was read writes back as the octets that were passed.
#[derive(Drop)]
pub struct TapeReader<'a> {
    pub(crate) tape: &'a [u8],
    pub(crate) at: usize,
    pub(crate) read: Vec<WarningBuf>,
    ghost within: { at ≤ length tape.now },
    ghost right: { all_warnings (map owned read.items) ≡ true },
    ghost written: { encode_all (map owned read.items) ≡ take at tape.now },
}
