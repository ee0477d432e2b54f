// A dump becomes a set without strings, its string references zeroed.
ghost use Rattle.std.specs.Prelude.{◌≡◌};
ghost use Rattle.dumps.specs.declared.import.NotImported.TheVariants.{NotWritten};
ghost use Rattle.dumps.specs.Import.{Imports};
ghost use Rattle.dumps.specs.Refused.{not_imported_number, not_imported_opening, imported_report};

use buffers::Writer;
use set_writer::{LONGEST_SET, MOST_ENTRIES};

// Why a dump is not imported.
#[derive(Clone, Copy, PartialEq, Eq)]
pub enum NotImported {
    // The dump does not split.
    DumpBroken,
    NotWritten(set_writer::NotWritten),
}

impl From<set_writer::NotWritten> for NotImported {
    ghost from_gives = { λ why e. e ≡ NotWritten why };

    fn from(why: set_writer::NotWritten) -> NotImported {
        NotImported::NotWritten(why)
    }
}

impl NotImported {
    // The number that the header has for it.
    pub fn number(self) -> u8
        ensures { result ≡ not_imported_number self }
    {
        match self {
            NotImported::DumpBroken => 23,
            NotImported::NotWritten(why) => why.number(),
        }
    }

    // The opening number of the resulting set, which says why 21; 0 where no set was made.
    pub fn opening(self) -> u8
        ensures { result ≡ not_imported_opening self }
    {
        match self {
            NotImported::DumpBroken => 0,
            NotImported::NotWritten(why) => why.opening(),
        }
    }
}

// What a set has no room for.
const TOO_LARGE: set_writer::NotWritten = set_writer::NotWritten::SetRefused(None);

// One entry is the device's.
const MOST_BODIES: usize = MOST_ENTRIES - 1;

// Before each piece's body stand six bytes.
const LONGEST_STREAM: usize = LONGEST_SET + 6 * MOST_ENTRIES;

// The set of a dump, at the buffer's start; where it is not imported the buffer is untouched.
pub fn import(dump: &[u8], out: &mut [u8]) -> Result<(), NotImported>
    ensures { Imports dump.now out.old out.new (imported_report result) }
{
    let n = crate::split(dump).ok_or(NotImported::DumpBroken)?;
    if (MOST_BODIES < n) | (LONGEST_SET < dump.len()) {
        return Err(NotImported::NotWritten(TOO_LARGE));
    }
    let mut stream = [0u8; LONGEST_STREAM];
    let mut w = Writer {
        out: &mut stream,
        at: 0,
    };
    crate::put_stream(&mut w, dump);
    let used = w.at;
    set_writer::write(
        &stream[..used],
        &dump[..0],
        descriptors::limits::full_speed(),
        out,
    )?;
    Ok(())
}
