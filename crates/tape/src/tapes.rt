// Reading and writing whole tapes.
ghost use Rattle.std.specs.Prelude.{◌≡◌, ℕ, List, [], ◌∷◌, ◌++◌, map, take, IfOk, IfErr, Ok};
ghost use Rattle.warning.specs.Meaning.{owned};
ghost use Rattle.tape.specs.declared.fault.Failure.TheVariants.{Memory};
ghost use Rattle.tape.specs.Format.{encode_all};
ghost use Rattle.tape.specs.Promises.{ReadsWhatWasWritten, WritesWhatWasRead};
ghost use Rattle.tape.specs.Readers.{whole_tape, stands_at, read_so_far, Next, ReadAs};
ghost use Rattle.tape.specs.Reading.{place, read_tape};
ghost use Rattle.tape.specs.Judging.{WrongForGood, CutShort};

use crate::cursor::Cursor;
use crate::fault::{ReadError, WriteError};
use crate::read::entry;
use crate::reader::TapeReader;
use crate::write_all::write_all;
use std::alloc::Global;
use warning::WarningBuf;

impl<'a> TapeReader<'a> {
    // A reader at the start of a tape.
    pub fn new(heap: Global, tape: &'a [u8]) -> TapeReader<'a>
        ensures tape { whole_tape result ≡ tape.now }
        ensures start { stands_at result ≡ place 0 tape.now }
        ensures none { read_so_far result ≡ [] }
    {
        TapeReader {
            tape,
            at: 0,
            read: Vec::new(heap),
        }
    }

    // Reads the next warning, and answers its offset; after the last one,
    // nothing.
    pub fn next(&mut self, heap: Global) -> Result<Option<usize>, ReadError>
        ensures tape { whole_tape self.new ≡ whole_tape self.old }
        ensures step { Next (stands_at self.old) (read_so_far self.old) (stands_at self.new) (read_so_far self.new) result }
    {
        let at = self.at;
        if at == self.tape.len() {
            return Ok(None);
        }
        let mut cursor = Cursor::new(self.tape, at);
        let warning = entry(heap, &mut cursor)?;
        self.read.push(warning)?;
        self.at = cursor.offset();
        Ok(Some(at))
    }

    // The warnings that have been read. They write back as the octets that
    // were passed.
    pub fn warnings(&self) -> &[WarningBuf]
        ensures value { map owned result.now ≡ read_so_far self.now }
        ensures written { encode_all (map owned result.now) ≡ take (stands_at self.now).at (whole_tape self.now) }
    {
        self.read.as_slice()
    }

    // Writes what has been read: these are the octets that were passed, and
    // they read as the same warnings.
    pub fn write_back(&self, heap: Global) -> Result<Vec<u8>, WriteError>
        ensures same { IfOk result (λ v. v.items ≡ take (stands_at self.now).at (whole_tape self.now)) }
        ensures reads_back { IfOk result (λ v. read_tape v.items ≡ Ok (read_so_far self.now)) }
        ensures wanting { IfErr result (λ e. e ≡ Memory) }
        ensures round_trips { ReadsWhatWasWritten × WritesWhatWasRead }
    {
        write_all(heap, self.read.as_slice())
    }

    // The same, in memory that the caller then owns.
    pub fn into_warnings(self) -> Vec<WarningBuf>
        ensures value { map owned result.items ≡ read_so_far self.entry }
        ensures written { encode_all (map owned result.items) ≡ take (stands_at self.entry).at (whole_tape self.entry) }
    {
        let TapeReader {
            tape: _,
            at: _,
            read,
        } = self;
        read
    }
}

// Reads a whole tape. What is readable writes back as the same octets.
pub fn read(heap: Global, tape: &[u8]) -> Result<Vec<WarningBuf>, ReadError>
    ensures value { ReadAs (read_tape tape.now) result }
    ensures writes_back { IfOk result (λ ws. encode_all (map owned ws.items) ≡ tape.now) }
    ensures judged { WrongForGood × CutShort }
{
    let mut reader = TapeReader::new(heap, tape);
    while reader.next(heap)?.is_some() {}
    Ok(reader.into_warnings())
}
