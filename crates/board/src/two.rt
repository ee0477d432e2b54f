// A board that lends two sets, one for each speed, and one serial block. Both sets are opened, one after the other, before the event's frame stands.
// Kept: the C interface names the parameters of the hk_ functions; inner ones are lent them side by side, since a struct would lend slices by address.
ghost use Rattle.std.specs.Prelude.{◌≡◌};
ghost use Rattle.sets.specs.Broken.{opened_number};
ghost use Rattle.sets.specs.Opening.{lent_two};
ghost use Rattle.sets.specs.Pair.{opening_two};
ghost use Rattle.records.specs.Image.{device_of};
ghost use Rattle.board.specs.Exports.{spot_of, spots_two, numbered, AnswersRecordEvent, AnswersImage, AnswersPortEvent, GivesEndpoint};
ghost use Rattle.board.specs.Lent.{OpensBytes};

use crate::{endpoint, numbers};
use events::{Event, Refusal, reply};
use records::{Change, Device, IMAGE_LENGTH};
use sets::opening::Broken;

// Opens two sets with their serial block: the image becomes the fresh record, whether they are accepted or not.
#[unsafe(no_mangle)]
pub extern "C" fn hk_two_open(full: &[u8], high: &[u8], serial: &[u8], image: &mut [u8]) -> u8
    ensures { OpensBytes (lent_two full.now high.now serial.now) image.old result image.new }
{
    if image.len() != IMAGE_LENGTH {
        return Refusal::RecordDoesNotFit as u8;
    }
    records::renewal::renew(image, false, Change::Fresh { power: 0, speed: 0 });
    sets::opening::number(pairs::opening_two(full, high, serial))
}

// Opening for an event. A function of its own, so that what it lends has given up its place on the stack when the event's parts are lent theirs.
pub fn opened(full: &[u8], high: &[u8], serial: &[u8]) -> Result<(), Broken>
    ensures { opened_number result ≡ opening_two full.now high.now serial.now }
{
    pairs::opening_two(full, high, serial)
}

// Any event, by its number: its number; the bytes handed back and how many count; the part of the set in use or the serial block.
#[unsafe(no_mangle)]
pub extern "C" fn hk_two_event<'a>(
    full: &'a [u8],
    high: &'a [u8],
    serial: &'a [u8],
    image: &mut [u8],
    kind: u8,
    value: u8,
    setup: &[u8],
    bytes: &mut [u8; 2],
    count: &mut u8,
    part: &mut &'a [u8],
) -> u8
    ensures { AnswersImage (lent_two full.now high.now serial.now)
        (spots_two (spot_of full.entry.ref_ptr) (spot_of high.entry.ref_ptr) (spot_of serial.entry.ref_ptr)) image.old (numbered kind value setup.now)
        result image.new bytes.new count.new part.new.now (spot_of part.new.ref_ptr) }
{
    let accepted = opened(full, high, serial).is_ok();
    let set = steps::in_use(full, high, octets::peek(image, 7));
    let what = numbers::event_of(kind, value, setup);
    let answer = crate::happen(accepted, true, set, serial, image, what);
    numbers::hand_out_of(full, set, serial, answer, bytes, count, part)
}

// An event on the image of a record, and its answer handed out.
fn image_event<'a>(
    full: &'a [u8],
    high: &'a [u8],
    serial: &'a [u8],
    image: &mut [u8; 32],
    what: Event,
    bytes: &mut [u8; 2],
    count: &mut u8,
    part: &mut &'a [u8],
) -> u8
    ensures { AnswersRecordEvent (lent_two full.now high.now serial.now)
        (spots_two (spot_of full.entry.ref_ptr) (spot_of high.entry.ref_ptr) (spot_of serial.entry.ref_ptr)) (device_of image.old) what
        result (device_of image.new) bytes.new count.new part.new.now (spot_of part.new.ref_ptr) }
{
    let accepted = opened(full, high, serial).is_ok();
    let set = steps::in_use(full, high, octets::peek(image, 7));
    let answer = steps::reply_in(accepted, true, set, serial, image, what);
    numbers::hand_out_of(full, set, serial, answer, bytes, count, part)
}

// An event on a record that is lent and changed where it stands.
fn record_event<'a>(
    full: &'a [u8],
    high: &'a [u8],
    serial: &'a [u8],
    device: &mut Device,
    what: Event,
    bytes: &mut [u8; 2],
    count: &mut u8,
    part: &mut &'a [u8],
) -> u8
    ensures { AnswersRecordEvent (lent_two full.now high.now serial.now)
        (spots_two (spot_of full.entry.ref_ptr) (spot_of high.entry.ref_ptr) (spot_of serial.entry.ref_ptr)) device.old what
        result device.new bytes.new count.new part.new.now (spot_of part.new.ref_ptr) }
{
    let mut image = [0u8; 32];
    records::store(*device, &mut image[..]);
    let number = image_event(full, high, serial, &mut image, what, bytes, count, part);
    steps::keep(device, &image);
    number
}

// Any event, by its number, at a port of a row of records; 18 for a port that is not there, before everything else.
#[unsafe(no_mangle)]
pub extern "C" fn hk_two_port_event<'a>(
    full: &'a [u8],
    high: &'a [u8],
    serial: &'a [u8],
    row: &mut [Device],
    port: usize,
    kind: u8,
    value: u8,
    setup: &[u8],
    bytes: &mut [u8; 2],
    count: &mut u8,
    part: &mut &'a [u8],
) -> u8
    ensures { AnswersPortEvent (lent_two full.now high.now serial.now)
        (spots_two (spot_of full.entry.ref_ptr) (spot_of high.entry.ref_ptr) (spot_of serial.entry.ref_ptr)) row.old port (numbered kind value setup.now)
        result row.new bytes.new count.new part.new.now (spot_of part.new.ref_ptr) }
{
    if row.len() <= port {
        return numbers::no_port(full, serial, bytes, count, part);
    }
    let what = numbers::event_of(kind, value, setup);
    record_event(full, high, serial, &mut row[port], what, bytes, count, part)
}

// Endpoint descriptor `number` of the current settings, from 0 on: a part of the set in use, and no copy.
#[unsafe(no_mangle)]
pub extern "C" fn hk_two_endpoint<'a>(
    full: &'a [u8],
    high: &'a [u8],
    serial: &'a [u8],
    image: &[u8],
    number: u8,
    descriptor: &mut &'a [u8],
) -> u8
    ensures { GivesEndpoint (lent_two full.now high.now serial.now)
        (spots_two (spot_of full.entry.ref_ptr) (spot_of high.entry.ref_ptr) (spot_of serial.entry.ref_ptr)) image.now number
        result descriptor.new.now (spot_of descriptor.new.ref_ptr) }
{
    let accepted = opened(full, high, serial).is_ok();
    let set = steps::in_use(full, high, octets::peek(image, 7));
    let answer = endpoint::answer_on(accepted, true, set, serial, image, number);
    *descriptor = reply::part(full, set, serial, answer);
    reply::number(answer)
}
