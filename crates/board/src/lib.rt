// The C interface: every function of include/heideklonk.h, and nothing else.
// Kept: the C interface names the parameters of the hk_ functions; inner ones are lent them side by side, since a struct would lend slices by address.
#![tactic(auto)]

ghost use Rattle.std.specs.Prelude.{◌≡◌, true};
ghost use Rattle.sets.specs.Opening.{lent};
ghost use Rattle.sets.specs.View.{accepted as opens};
ghost use Rattle.events.specs.Coded.{answer_in};
ghost use Rattle.events.specs.Step.{event};
ghost use Rattle.events.specs.declared.Event.TheVariants.{StatusEnd, BusReset, Halt, PacketPassed, Power, Suspend, Resume, Wake};
ghost use Rattle.steps.specs.Gathering.{Openable, view_in, event_in};
ghost use Rattle.board.specs.Exports.{Happens, AnswersSetup, CutsPacket, spot_of, spots, numbered, AnswersRecordEvent};
ghost use Rattle.board.specs.Lent.{OpensBytes};

use events::{Answer, Event, Refusal};
use records::{Change, Device, IMAGE_LENGTH};

pub mod endpoint;
pub mod large;
pub mod makers;
mod numbers;
pub mod pipe;
pub mod ports;
pub mod two;
pub mod version;

// Opens a set with its serial block: the image becomes the fresh record, whether they are accepted or not.
#[unsafe(no_mangle)]
pub extern "C" fn hk_open(set: &[u8], serial: &[u8], image: &mut [u8]) -> u8
    ensures { OpensBytes (lent set.now serial.now) image.old result image.new }
{
    if image.len() != IMAGE_LENGTH {
        return Refusal::RecordDoesNotFit as u8;
    }
    records::renewal::renew(image, false, Change::Fresh { power: 0, speed: 0 });
    sets::opening::number(steps::opening(set, serial))
}

// Opening for an event: whether what is lent opens.
fn opened(set: &[u8], serial: &[u8]) -> bool
    ensures { result ≡ opens (lent set.now serial.now) }
{
    steps::opening(set, serial).is_ok()
}

// An event, on an image of any length. `accepted`: what is lent opens, which is asked before this frame stands, to spare the stack. `set` is the set in
// use, one of two if `paired`. What is sought is small, and so it is asked first.
// Kept: that the slices open goes beside them as `accepted`: a struct lends slices by address, 16 bytes of stack at each level.
fn happen(
    accepted: bool,
    paired: bool,
    set: &[u8],
    serial: &[u8],
    image: &mut [u8],
    what: Event,
) -> Answer
    requires { accepted ≡ true → Openable set.now serial.now }
    ensures answer { answer_in result ≡ (event_in accepted (view_in paired set.now serial.now) image.old what).answer }
    ensures image { image.new ≡ (event_in accepted (view_in paired set.now serial.now) image.old what).image }
{
    let sought = steps::facts::seek(accepted, set, serial, what);
    let known = steps::facts::learn(accepted, set, serial, image, what);
    steps::react(accepted, paired, image, what, known, sought)
}

// The same, of a board that lends one set.
fn event(accepted: bool, set: &[u8], serial: &[u8], image: &mut [u8], what: Event) -> Answer
    requires { accepted ≡ opens (lent set.now serial.now) }
    ensures answer { answer_in result ≡ (event (lent set.now serial.now) image.old what).answer }
    ensures image { image.new ≡ (event (lent set.now serial.now) image.old what).image }
{
    happen(accepted, false, set, serial, image, what)
}

// Answers a setup: its number; the bytes handed back and how many count; the part of the set or the serial block.
#[unsafe(no_mangle)]
pub extern "C" fn hk_setup<'a>(
    set: &'a [u8],
    serial: &'a [u8],
    image: &mut [u8],
    setup: &[u8],
    bytes: &mut [u8; 2],
    count: &mut u8,
    part: &mut &'a [u8],
) -> u8
    ensures { AnswersSetup (lent set.now serial.now) (spots (spot_of set.entry.ref_ptr) (spot_of serial.entry.ref_ptr)) image.old setup.now
        result image.new bytes.new count.new part.new.now (spot_of part.new.ref_ptr) }
{
    let accepted = opened(set, serial);
    let answer = event(accepted, set, serial, image, events::setup_event(setup));
    numbers::hand_out(set, serial, answer, bytes, count, part)
}

// An event that is answered by its number alone.
fn tell(set: &[u8], serial: &[u8], image: &mut [u8], what: Event) -> u8
    ensures { Happens (lent set.now serial.now) image.old what result image.new }
{
    let accepted = opened(set, serial);
    events::reply::number(event(accepted, set, serial, image, what))
}

// The status stage has ended: a waiting address is taken.
#[unsafe(no_mangle)]
pub extern "C" fn hk_status_end(set: &[u8], serial: &[u8], image: &mut [u8]) -> u8
    ensures { Happens (lent set.now serial.now) image.old StatusEnd result image.new }
{
    tell(set, serial, image, Event::StatusEnd)
}

// The bus was reset: the fresh record, but the power source stays.
#[unsafe(no_mangle)]
pub extern "C" fn hk_bus_reset(set: &[u8], serial: &[u8], image: &mut [u8]) -> u8
    ensures { Happens (lent set.now serial.now) image.old (BusReset 0) result image.new }
{
    tell(set, serial, image, Event::BusReset(0))
}

// The bus was reset, to a speed: a board that lends one set has full speed alone.
#[unsafe(no_mangle)]
pub extern "C" fn hk_bus_reset_to(set: &[u8], serial: &[u8], image: &mut [u8], speed: u8) -> u8
    ensures { Happens (lent set.now serial.now) image.old (BusReset speed) result image.new }
{
    tell(set, serial, image, Event::BusReset(speed))
}

// The function halts an endpoint.
#[unsafe(no_mangle)]
pub extern "C" fn hk_halt(set: &[u8], serial: &[u8], image: &mut [u8], endpoint: u8) -> u8
    ensures { Happens (lent set.now serial.now) image.old (Halt endpoint) result image.new }
{
    tell(set, serial, image, Event::Halt(endpoint))
}

// A packet has passed at an endpoint.
#[unsafe(no_mangle)]
pub extern "C" fn hk_packet_passed(set: &[u8], serial: &[u8], image: &mut [u8], endpoint: u8) -> u8
    ensures { Happens (lent set.now serial.now) image.old (PacketPassed endpoint) result image.new }
{
    tell(set, serial, image, Event::PacketPassed(endpoint))
}

// The board found its power source: 0 the bus, 1 its own supply.
#[unsafe(no_mangle)]
pub extern "C" fn hk_power(set: &[u8], serial: &[u8], image: &mut [u8], source: u8) -> u8
    ensures { Happens (lent set.now serial.now) image.old (Power source) result image.new }
{
    tell(set, serial, image, Event::Power(source))
}

// The bus has fallen silent: the device is suspended.
#[unsafe(no_mangle)]
pub extern "C" fn hk_suspend(set: &[u8], serial: &[u8], image: &mut [u8]) -> u8
    ensures { Happens (lent set.now serial.now) image.old Suspend result image.new }
{
    tell(set, serial, image, Event::Suspend)
}

// The host resumes the bus.
#[unsafe(no_mangle)]
pub extern "C" fn hk_resume(set: &[u8], serial: &[u8], image: &mut [u8]) -> u8
    ensures { Happens (lent set.now serial.now) image.old Resume result image.new }
{
    tell(set, serial, image, Event::Resume)
}

// Whether the board may signal the host to wake.
#[unsafe(no_mangle)]
pub extern "C" fn hk_wake(set: &[u8], serial: &[u8], image: &mut [u8]) -> u8
    ensures { Happens (lent set.now serial.now) image.old Wake result image.new }
{
    tell(set, serial, image, Event::Wake)
}

// Packet `number` of a reply to a request that asked for `asked` bytes, with packets of `size` bytes: a part of the reply, and no copy.
#[unsafe(no_mangle)]
pub extern "C" fn hk_packet<'a>(
    reply: &'a [u8],
    asked: u16,
    size: u32,
    number: u32,
    cut: &mut &'a [u8],
) -> u8
    ensures { CutsPacket reply.now (spot_of reply.entry.ref_ptr) asked size number result cut.new.now (spot_of cut.new.ref_ptr) }
{
    *cut = packets::cut(reply, asked, size, number);
    match packets::packet_of(reply.len(), asked, size, number) {
        Some(_) => 0,
        None => packets::NO_SUCH_PACKET,
    }
}

// Any event, by its number, on a record that is lent and changed where it stands: for a board that keeps its record aligned.
#[unsafe(no_mangle)]
pub extern "C" fn hk_record_event<'a>(
    set: &'a [u8],
    serial: &'a [u8],
    device: &mut Device,
    kind: u8,
    value: u8,
    setup: &[u8],
    bytes: &mut [u8; 2],
    count: &mut u8,
    part: &mut &'a [u8],
) -> u8
    ensures { AnswersRecordEvent (lent set.now serial.now) (spots (spot_of set.entry.ref_ptr) (spot_of serial.entry.ref_ptr)) device.old (numbered kind value setup.now)
        result device.new bytes.new count.new part.new.now (spot_of part.new.ref_ptr) }
{
    let accepted = opened(set, serial);
    let event = numbers::event_of(kind, value, setup);
    let answer = steps::step_lent(accepted, device, set, serial, event);
    numbers::hand_out(set, serial, answer, bytes, count, part)
}
