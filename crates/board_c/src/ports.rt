// A board with a row of records, one for each port: the same set or sets at all of them, a serial block at each.
// Kept: the C interface names the parameters of these functions.
ghost use Rattle.sets.specs.Opening.{lent};
ghost use Rattle.board.specs.Exports.{spot_of, spots, numbered, AnswersPortEvent};

use records::Device;

// Any event, by its number, at a port of the row; 18 for a port that is not there, before everything else.
#[unsafe(no_mangle)]
pub extern "C" fn hk_port_event<'a>(
    set: &'a [u8],
    serial: &'a [u8],
    row: &mut [Device],
    port: usize,
    kind: u8,
    value: u8,
    setup: &[u8],
    bytes: &mut [u8; 2],
    count: &mut u8,
    part: &mut &'a [u8],
) -> u8
    ensures { AnswersPortEvent (lent set.now serial.now) (spots (spot_of set.entry.ref_ptr) (spot_of serial.entry.ref_ptr)) row.old port (numbered kind value setup.now)
        result row.new bytes.new count.new part.new.now (spot_of part.new.ref_ptr) }
{
    board::ports::hk_port_event(
        set, serial, row, port, kind, value, setup, bytes, count, part,
    )
}
