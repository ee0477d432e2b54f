// A board with a row of records, one for each port: the same set or sets at all of them, a serial block at each.
// Kept: the C interface names the parameters of the hk_ functions; inner ones are lent them side by side, since a struct would lend slices by address.
ghost use Rattle.sets.specs.Opening.{lent};
ghost use Rattle.records.specs.Image.{device_of};
ghost use Rattle.board.specs.Exports.{spot_of, spots, numbered, AnswersRecordEvent, AnswersPortEvent};

use crate::numbers;
use events::Event;
use records::Device;

// An event on the image of a record, and its answer handed out.
fn image_event<'a>(
    set: &'a [u8],
    serial: &'a [u8],
    image: &mut [u8; 32],
    what: Event,
    bytes: &mut [u8; 2],
    count: &mut u8,
    part: &mut &'a [u8],
) -> u8
    ensures { AnswersRecordEvent (lent set.now serial.now)
        (spots (spot_of set.entry.ref_ptr) (spot_of serial.entry.ref_ptr)) (device_of image.old) what
        result (device_of image.new) bytes.new count.new part.new.now (spot_of part.new.ref_ptr) }
{
    let accepted = crate::opened(set, serial);
    let answer = steps::reply_in(accepted, false, set, serial, image, what);
    numbers::hand_out(set, serial, answer, bytes, count, part)
}

// An event on a record that is lent and changed where it stands.
fn record_event<'a>(
    set: &'a [u8],
    serial: &'a [u8],
    device: &mut Device,
    what: Event,
    bytes: &mut [u8; 2],
    count: &mut u8,
    part: &mut &'a [u8],
) -> u8
    ensures { AnswersRecordEvent (lent set.now serial.now)
        (spots (spot_of set.entry.ref_ptr) (spot_of serial.entry.ref_ptr)) device.old what
        result device.new bytes.new count.new part.new.now (spot_of part.new.ref_ptr) }
{
    let mut image = [0u8; 32];
    records::store(*device, &mut image[..]);
    let number = image_event(set, serial, &mut image, what, bytes, count, part);
    steps::keep(device, &image);
    number
}

// Any event, by its number, at a port of the row; 18 for a port that is not there, before everything else.
#[unsafe(no_mangle)]
pub extern "C" fn hk_port_event<'a>(
    set: &'a [u8],
    serial: &'a [u8],
    row: &mut [Device],
    port: usize,
    kind: u8,
    value: u8,
    setup: &[u8],
    bytes: &mut [u8; 2],
    count: &mut u8,
    part: &mut &'a [u8],
) -> u8
    ensures { AnswersPortEvent (lent set.now serial.now) (spots (spot_of set.entry.ref_ptr) (spot_of serial.entry.ref_ptr)) row.old port (numbered kind value setup.now)
        result row.new bytes.new count.new part.new.now (spot_of part.new.ref_ptr) }
{
    if row.len() <= port {
        return numbers::no_port(set, serial, bytes, count, part);
    }
    let what = numbers::event_of(kind, value, setup);
    record_event(set, serial, &mut row[port], what, bytes, count, part)
}
