// The C interface as a static library: every function of include/heideklonk.h, each the function of the crate `board` that has its name.
// Kept: the C interface names the parameters of these functions.
#![tactic(auto)]

ghost use Rattle.sets.specs.Opening.{lent};
ghost use Rattle.events.specs.declared.Event.TheVariants.{StatusEnd, BusReset, Halt, PacketPassed, Power, Suspend, Resume, Wake};
ghost use Rattle.board.specs.Exports.{Happens, AnswersSetup, CutsPacket, spot_of, spots, numbered, AnswersRecordEvent};
ghost use Rattle.board.specs.Lent.{OpensBytes};

use records::Device;

mod endpoint;
mod large;
mod makers;
mod pipe;
mod ports;
mod two;
mod version;

// Opens a set with its serial block: the image becomes the fresh record, whether they are accepted or not.
#[unsafe(no_mangle)]
pub extern "C" fn hk_open(set: &[u8], serial: &[u8], image: &mut [u8]) -> u8
    ensures { OpensBytes (lent set.now serial.now) image.old result image.new }
{
    board::hk_open(set, serial, image)
}

// Answers a setup: its number; the bytes handed back and how many count; the part of the set or the serial block.
#[unsafe(no_mangle)]
pub extern "C" fn hk_setup<'a>(
    set: &'a [u8],
    serial: &'a [u8],
    image: &mut [u8],
    setup: &[u8],
    bytes: &mut [u8; 2],
    count: &mut u8,
    part: &mut &'a [u8],
) -> u8
    ensures { AnswersSetup (lent set.now serial.now) (spots (spot_of set.entry.ref_ptr) (spot_of serial.entry.ref_ptr)) image.old setup.now
        result image.new bytes.new count.new part.new.now (spot_of part.new.ref_ptr) }
{
    board::hk_setup(set, serial, image, setup, bytes, count, part)
}

// The status stage has ended: a waiting address is taken.
#[unsafe(no_mangle)]
pub extern "C" fn hk_status_end(set: &[u8], serial: &[u8], image: &mut [u8]) -> u8
    ensures { Happens (lent set.now serial.now) image.old StatusEnd result image.new }
{
    board::hk_status_end(set, serial, image)
}

// The bus was reset: the fresh record, but the power source stays.
#[unsafe(no_mangle)]
pub extern "C" fn hk_bus_reset(set: &[u8], serial: &[u8], image: &mut [u8]) -> u8
    ensures { Happens (lent set.now serial.now) image.old (BusReset 0) result image.new }
{
    board::hk_bus_reset(set, serial, image)
}

// The bus was reset, to a speed: a board that lends one set has full speed alone.
#[unsafe(no_mangle)]
pub extern "C" fn hk_bus_reset_to(set: &[u8], serial: &[u8], image: &mut [u8], speed: u8) -> u8
    ensures { Happens (lent set.now serial.now) image.old (BusReset speed) result image.new }
{
    board::hk_bus_reset_to(set, serial, image, speed)
}

// The function halts an endpoint.
#[unsafe(no_mangle)]
pub extern "C" fn hk_halt(set: &[u8], serial: &[u8], image: &mut [u8], endpoint: u8) -> u8
    ensures { Happens (lent set.now serial.now) image.old (Halt endpoint) result image.new }
{
    board::hk_halt(set, serial, image, endpoint)
}

// A packet has passed at an endpoint.
#[unsafe(no_mangle)]
pub extern "C" fn hk_packet_passed(set: &[u8], serial: &[u8], image: &mut [u8], endpoint: u8) -> u8
    ensures { Happens (lent set.now serial.now) image.old (PacketPassed endpoint) result image.new }
{
    board::hk_packet_passed(set, serial, image, endpoint)
}

// The board found its power source: 0 the bus, 1 its own supply.
#[unsafe(no_mangle)]
pub extern "C" fn hk_power(set: &[u8], serial: &[u8], image: &mut [u8], source: u8) -> u8
    ensures { Happens (lent set.now serial.now) image.old (Power source) result image.new }
{
    board::hk_power(set, serial, image, source)
}

// The bus has fallen silent: the device is suspended.
#[unsafe(no_mangle)]
pub extern "C" fn hk_suspend(set: &[u8], serial: &[u8], image: &mut [u8]) -> u8
    ensures { Happens (lent set.now serial.now) image.old Suspend result image.new }
{
    board::hk_suspend(set, serial, image)
}

// The host resumes the bus.
#[unsafe(no_mangle)]
pub extern "C" fn hk_resume(set: &[u8], serial: &[u8], image: &mut [u8]) -> u8
    ensures { Happens (lent set.now serial.now) image.old Resume result image.new }
{
    board::hk_resume(set, serial, image)
}

// Whether the board may signal the host to wake.
#[unsafe(no_mangle)]
pub extern "C" fn hk_wake(set: &[u8], serial: &[u8], image: &mut [u8]) -> u8
    ensures { Happens (lent set.now serial.now) image.old Wake result image.new }
{
    board::hk_wake(set, serial, image)
}

// Packet `number` of a reply to a request that asked for `asked` bytes, with packets of `size` bytes: a part of the reply, and no copy.
#[unsafe(no_mangle)]
pub extern "C" fn hk_packet<'a>(
    reply: &'a [u8],
    asked: u16,
    size: u32,
    number: u32,
    cut: &mut &'a [u8],
) -> u8
    ensures { CutsPacket reply.now (spot_of reply.entry.ref_ptr) asked size number result cut.new.now (spot_of cut.new.ref_ptr) }
{
    board::hk_packet(reply, asked, size, number, cut)
}

// Any event, by its number, on a record that is lent and changed where it stands: for a board that keeps its record aligned.
#[unsafe(no_mangle)]
pub extern "C" fn hk_record_event<'a>(
    set: &'a [u8],
    serial: &'a [u8],
    device: &mut Device,
    kind: u8,
    value: u8,
    setup: &[u8],
    bytes: &mut [u8; 2],
    count: &mut u8,
    part: &mut &'a [u8],
) -> u8
    ensures { AnswersRecordEvent (lent set.now serial.now) (spots (spot_of set.entry.ref_ptr) (spot_of serial.entry.ref_ptr)) device.old (numbered kind value setup.now)
        result device.new bytes.new count.new part.new.now (spot_of part.new.ref_ptr) }
{
    board::hk_record_event(set, serial, device, kind, value, setup, bytes, count, part)
}
