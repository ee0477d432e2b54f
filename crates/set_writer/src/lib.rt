// The set writer: pieces end to end, in any order, become a set in a lent buffer.
#![tactic(auto)]

ghost use Rattle.std.specs.Prelude.{◌≡◌, true, Some, ◌≤◌, length};
ghost use Rattle.octets.specs.Octets.{word};
ghost use Rattle.octets.specs.Sentences.{pick};
ghost use Rattle.set_writer.specs.Writer.{ends, pieces, laid_length, sorted, set_of};
ghost use Rattle.set_writer.specs.Reported.{Handed, Reported};
ghost use Rattle.set_writer.specs.declared.NotWritten.TheVariants.{SetRefused};
ghost use Rattle.set_writer.specs.Refused.{refused_number, refused_opening, report_of};

use buffers::Writer;
use descriptors::limits::Limits;
use sets::opening::Broken;

pub mod layout;
pub mod pieces;
mod sorting;

// The most entries and bytes that a set has.
pub const MOST_ENTRIES: usize = 64;

pub const LONGEST_SET: usize = 16384;

// Why a set is not written.
#[derive(Clone, Copy, PartialEq, Eq)]
pub enum NotWritten {
    // The stream does not end where its lengths say.
    PiecesBroken,
    // The set would be too large, or it would not open, and why.
    SetRefused(Option<Broken>),
    BufferTooShort,
}

impl From<Broken> for NotWritten {
    ghost from_gives = { λ broken e. e ≡ SetRefused (Some broken) };

    fn from(broken: Broken) -> NotWritten {
        NotWritten::SetRefused(Some(broken))
    }
}

impl NotWritten {
    // The number that the header has for it.
    pub fn number(self) -> u8
        ensures { result ≡ refused_number self }
    {
        match self {
            NotWritten::PiecesBroken => 20,
            NotWritten::SetRefused(_) => 21,
            NotWritten::BufferTooShort => 22,
        }
    }

    // The opening number of the set that the pieces make, which says why 21; 0 where no set was made.
    pub fn opening(self) -> u8
        ensures { result ≡ refused_opening self }
    {
        match self {
            NotWritten::SetRefused(Some(broken)) => sets::opening::number(Err(broken)),
            _ => 0,
        }
    }
}

// A set that is laid out goes into the buffer, if it would open and has room there.
fn hand_over(set: &[u8], serial: &[u8], limits: Limits, out: &mut [u8]) -> Result<(), NotWritten>
    ensures { Handed limits set.now serial.now out.old out.new (report_of result) }
{
    sets::opening::opening(set, serial, limits)?;
    if out.len() < set.len() {
        return Err(NotWritten::BufferTooShort);
    }
    out[..set.len()].copy_from_slice(set);
    Ok(())
}

// The set of n pieces, of `size` bytes: sorted, laid out aside, and handed over.
fn assemble(
    stream: &[u8],
    n: usize,
    size: usize,
    serial: &[u8],
    limits: Limits,
    out: &mut [u8],
) -> Result<(), NotWritten>
    requires stream_value { ends stream.now ≡ true }
    requires n_value { n ≡ length (pieces stream.now) }
    requires n_bound { n ≤ 64 }
    requires size_value { size ≡ laid_length (sorted (pieces stream.now)) }
    requires size_bound { size ≤ 16384 }
    ensures { Handed limits (set_of stream.now) serial.now out.old out.new (report_of result) }
{
    let mut order = [0usize; MOST_ENTRIES];
    sorting::sort(stream, &mut order);
    let mut scratch = [0u8; LONGEST_SET];
    let mut w = Writer {
        out: &mut scratch,
        at: 0,
    };
    layout::lay(&mut w, stream, &order[..n], size);
    hand_over(&scratch[..size], serial, limits, out)
}

// The set of a stream of pieces, at the buffer's start; where it is not written the buffer is untouched.
pub fn write(stream: &[u8], serial: &[u8], limits: Limits, out: &mut [u8]) -> Result<(), NotWritten>
    ensures { Reported limits stream.now serial.now out.old out.new (report_of result) }
{
    let n = pieces::count_pieces(stream).ok_or(NotWritten::PiecesBroken)?;
    if MOST_ENTRIES < n {
        return Err(NotWritten::SetRefused(None));
    }
    // A piece's entry has two bytes more than what stands before its body.
    let more = 4 + 2 * n;
    if LONGEST_SET - more < stream.len() {
        return Err(NotWritten::SetRefused(None));
    }
    assemble(stream, n, more + stream.len(), serial, limits, out)
}

// The length of what a call wrote at the buffer's start, which is a set's first two bytes; 0 after a refusal.
pub fn length_written(done: bool, out: &[u8]) -> u16
    ensures { result ≡ pick done (word out.now 0) 0 }
{
    if done { octets::word(out, 0) } else { 0 }
}
