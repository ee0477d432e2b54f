// A dump of a set: its device descriptor and its configuration bodies.
ghost use Rattle.std.specs.Prelude.{◌≡◌, ◌<◌};
ghost use Rattle.sets.specs.Contents.{entries};
ghost use Rattle.dumps.specs.declared.export.NotExported.TheVariants.{Opening};
ghost use Rattle.dumps.specs.Export.{share, shares, Exports};
ghost use Rattle.dumps.specs.Refused.{not_exported_number, dumped_of};

use descriptors::types;
use sets::Entry;
use sets::opening::Broken;

// Why a set is not exported.
#[derive(Clone, Copy, PartialEq, Eq)]
pub enum NotExported {
    Opening(Broken),
    BufferTooShort,
}

impl From<Broken> for NotExported {
    ghost from_gives = { λ broken e. e ≡ Opening broken };

    fn from(broken: Broken) -> NotExported {
        NotExported::Opening(broken)
    }
}

impl NotExported {
    // The number that the header has for it.
    pub fn number(self) -> u8
        ensures { result ≡ not_exported_number self }
    {
        match self {
            NotExported::Opening(broken) => sets::opening::number(Err(broken)),
            NotExported::BufferTooShort => 22,
        }
    }
}

// How many bytes an entry adds to a dump.
fn share_of(e: Entry) -> usize
    ensures { (result ≡ share e) × (result < 65536) }
{
    if e.kind <= types::CONFIGURATION {
        return e.length as usize;
    }
    0
}

// How many bytes the device and the configurations have.
fn size_of(set: &[u8]) -> usize
    ensures { result ≡ shares (entries set.now) }
{
    let count = octets::peek(set, 2);
    let mut size = 0;
    for i in 0..count {
        size += share_of(sets::contents::entry_at(set, i));
    }
    size
}

// The dump of a set, at the buffer's start, and its length; where there is none the buffer is untouched. In a set that opens these bodies lie end to end.
pub fn export(set: &[u8], serial: &[u8], out: &mut [u8]) -> Result<u16, NotExported>
    ensures { Exports set.now serial.now out.old out.new (dumped_of result) }
{
    sets::opening::opening(set, serial, descriptors::limits::full_speed())?;
    let start = 4 + 8 * (octets::peek(set, 2) as usize);
    let size = size_of(set);
    if out.len() < size {
        return Err(NotExported::BufferTooShort);
    }
    out[..size].copy_from_slice(&set[start..start + size]);
    let written = size as u16;
    Ok(written)
}
