// A board that lends two sets, one for each speed, and one serial block. Both sets are opened, one after the other, before the event's frame stands.
// Kept: the C interface names the parameters of these functions.
ghost use Rattle.sets.specs.Opening.{lent_two};
ghost use Rattle.board.specs.Exports.{spot_of, spots_two, numbered, AnswersImage, AnswersPortEvent, GivesEndpoint};
ghost use Rattle.board.specs.Lent.{OpensBytes};

use records::Device;

// Opens two sets with their serial block: the image becomes the fresh record, whether they are accepted or not.
#[unsafe(no_mangle)]
pub extern "C" fn hk_two_open(full: &[u8], high: &[u8], serial: &[u8], image: &mut [u8]) -> u8
    ensures { OpensBytes (lent_two full.now high.now serial.now) image.old result image.new }
{
    board::two::hk_two_open(full, high, serial, image)
}

// Any event, by its number: its number; the bytes handed back and how many count; the part of the set in use or the serial block.
#[unsafe(no_mangle)]
pub extern "C" fn hk_two_event<'a>(
    full: &'a [u8],
    high: &'a [u8],
    serial: &'a [u8],
    image: &mut [u8],
    kind: u8,
    value: u8,
    setup: &[u8],
    bytes: &mut [u8; 2],
    count: &mut u8,
    part: &mut &'a [u8],
) -> u8
    ensures { AnswersImage (lent_two full.now high.now serial.now)
        (spots_two (spot_of full.entry.ref_ptr) (spot_of high.entry.ref_ptr) (spot_of serial.entry.ref_ptr)) image.old (numbered kind value setup.now)
        result image.new bytes.new count.new part.new.now (spot_of part.new.ref_ptr) }
{
    board::two::hk_two_event(
        full, high, serial, image, kind, value, setup, bytes, count, part,
    )
}

// Any event, by its number, at a port of a row of records; 18 for a port that is not there, before everything else.
#[unsafe(no_mangle)]
pub extern "C" fn hk_two_port_event<'a>(
    full: &'a [u8],
    high: &'a [u8],
    serial: &'a [u8],
    row: &mut [Device],
    port: usize,
    kind: u8,
    value: u8,
    setup: &[u8],
    bytes: &mut [u8; 2],
    count: &mut u8,
    part: &mut &'a [u8],
) -> u8
    ensures { AnswersPortEvent (lent_two full.now high.now serial.now)
        (spots_two (spot_of full.entry.ref_ptr) (spot_of high.entry.ref_ptr) (spot_of serial.entry.ref_ptr)) row.old port (numbered kind value setup.now)
        result row.new bytes.new count.new part.new.now (spot_of part.new.ref_ptr) }
{
    board::two::hk_two_port_event(
        full, high, serial, row, port, kind, value, setup, bytes, count, part,
    )
}

// Endpoint descriptor `number` of the current settings, from 0 on: a part of the set in use, and no copy.
#[unsafe(no_mangle)]
pub extern "C" fn hk_two_endpoint<'a>(
    full: &'a [u8],
    high: &'a [u8],
    serial: &'a [u8],
    image: &[u8],
    number: u8,
    descriptor: &mut &'a [u8],
) -> u8
    ensures { GivesEndpoint (lent_two full.now high.now serial.now)
        (spots_two (spot_of full.entry.ref_ptr) (spot_of high.entry.ref_ptr) (spot_of serial.entry.ref_ptr)) image.now number
        result descriptor.new.now (spot_of descriptor.new.ref_ptr) }
{
    board::two::hk_two_endpoint(full, high, serial, image, number, descriptor)
}
