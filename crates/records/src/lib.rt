// The device record: what a board keeps between events.
#![tactic(auto)]

ghost use Rattle.std.specs.Prelude.{◌≡◌, false, length};
ghost use Rattle.descriptors.specs.declared.survey.Asked.{Asked};
ghost use Rattle.descriptors.specs.Survey.{Surveys};
ghost use Rattle.sets.specs.View.{View, has_value, wakes};
ghost use Rattle.records.specs.Device.{Sized, fresh, settled, test_waits};
ghost use Rattle.records.specs.Image.{device_of, image_of};
ghost use Rattle.records.specs.Change.{valued, misfit, record_in};
ghost use Rattle.records.specs.Fits.{in_range, good_waiting, good_state, fits};

use descriptors::survey::Survey;

pub mod renewal;

// How many bytes an image has.
pub const IMAGE_LENGTH: usize = 32;

// A device's states.
// Kept: the states, and the numbers below, are bytes and no enums: in C's record any may stand, and byte 2 and byte 7 are sums of some of them.
pub const DEFAULT: u8 = 0;

pub const ADDRESS: u8 = 1;

pub const CONFIGURED: u8 = 2;

// The largest address that SET_ADDRESS gives.
const LAST_ADDRESS: u8 = 127;

// Nothing waits for the status end.
pub const NOTHING: u8 = 255;

// The speed of the set in use.
pub const SPEED_FULL: u8 = 0;

pub const SPEED_HIGH: u8 = 1;

// Test modes have the selectors 1 to 5. One waits as 128 plus its selector; once entered, the speed is 1 plus 16 times it.
pub const LAST_TEST_MODE: u8 = 5;

pub const TEST_WAITING: u8 = 128;

pub const TEST_ENTERED: u8 = 16;

const FIRST_TEST_WAITS: u8 = TEST_WAITING + 1;

const LAST_TEST_WAITS: u8 = TEST_WAITING + LAST_TEST_MODE;

const LAST_TEST_ENTERED: u8 = SPEED_HIGH + TEST_ENTERED * LAST_TEST_MODE;

// A speed from here on: a test mode is entered.
pub const IN_TEST_MODE: u8 = 2;

// No set has this state.
const NO_STATE: u8 = 255;

// In the order of its 32-byte image. state: 0 Default, 1 Address, 2 Configured; waiting: the address that the next status end
// applies, or 128 plus the selector of the test mode that it enters, 255 for none; power: 0 bus, 1 own supply; suspended: 0 or 1; speed: 0 full, 1
// high, and 1 plus 16 times the selector of an entered test mode; bit e of halts and toggles is OUT endpoint e, bit 16 + e is IN.
// Kept: the state, the switches and the speed are bytes and no enums, since the record is C's, and any byte may stand there until `fits` has looked.
#[repr(C)]
#[derive(Clone, Copy)]
pub struct Device {
    pub state: u8,
    pub address: u8,
    pub waiting: u8,
    pub configuration: u8,
    pub wakeup: u8,
    pub power: u8,
    pub suspended: u8,
    pub speed: u8,
    pub alternates: [u8; 16],
    pub halts: u32,
    pub toggles: u32,
}

// What an event changes of a record: nothing, or the fields that a variant names, which get these values. Small, so that it travels where the record would not.
// Address: nothing waits any more; Configuration: every setting, halt and toggle becomes 0; Setting: one interface gets another; Passed: the device is awake, too;
// Fresh: the fresh record, but for its power source and its speed; TestMode: byte 7 of an entered test mode, and nothing waits any more.
#[derive(Clone, Copy)]
pub enum Change {
    Kept,
    Waiting(u8),
    Wakeup(u8),
    Power(u8),
    Suspended(u8),
    Address {
        state: u8,
        address: u8,
    },
    Configuration {
        state: u8,
        value: u8,
    },
    Setting {
        interface: u8,
        alternate: u8,
        halts: u32,
        toggles: u32,
    },
    Endpoints {
        halts: u32,
        toggles: u32,
    },
    Passed {
        toggles: u32,
    },
    Fresh {
        power: u8,
        speed: u8,
    },
    TestMode(u8),
}

pub fn fresh() -> Device
    ensures { result ≡ fresh }
{
    Device {
        state: DEFAULT,
        address: 0,
        waiting: NOTHING,
        configuration: 0,
        wakeup: 0,
        power: 0,
        suspended: 0,
        speed: SPEED_FULL,
        alternates: [0; 16],
        halts: 0,
        toggles: 0,
    }
}

// What a setup settles: nothing waits any more, and the device is awake.
pub fn settled(device: Device) -> Device
    ensures { result ≡ settled device }
{
    Device {
        waiting: NOTHING,
        suspended: 0,
        ..device
    }
}

// The record of an image.
pub fn laid(image: &[u8; 32]) -> Device
    ensures { result ≡ device_of image.now }
{
    let mut alternates = [0; 16];
    alternates.copy_from_slice(&image[8..24]);
    Device {
        state: image[0],
        address: image[1],
        waiting: image[2],
        configuration: image[3],
        wakeup: image[4],
        power: image[5],
        suspended: image[6],
        speed: image[7],
        alternates,
        halts: u32::from_le_bytes([image[24], image[25], image[26], image[27]]),
        toggles: u32::from_le_bytes([image[28], image[29], image[30], image[31]]),
    }
}

// The same, of an image that C lends.
// Kept: `load` and `store` take a slice and ask for its length, since the papers name them and C lends slices; `laid` takes an image by its type.
pub fn load(image: &[u8]) -> Device
    requires { length image.now ≡ 32 }
    ensures { result ≡ device_of image.now }
{
    laid(image.as_array().unwrap())
}

// A record that fits no set: it stands for an image of another length.
fn misfit() -> Device
    ensures { result ≡ misfit }
{
    Device {
        state: NO_STATE,
        ..fresh()
    }
}

// The record of an image of any length.
pub fn read(image: &[u8]) -> Device
    ensures { result ≡ record_in image.now }
{
    match image.as_array() {
        Some(whole) => laid(whole),
        None => misfit(),
    }
}

// The record's image.
pub fn store(device: Device, image: &mut [u8])
    requires { length image.old ≡ 32 }
    ensures written { image.new ≡ image_of device }
    ensures sized { Sized device }
{
    let front = [
        device.state,
        device.address,
        device.waiting,
        device.configuration,
        device.wakeup,
        device.power,
        device.suspended,
        device.speed,
    ];
    let alternates = device.alternates;
    image[0..8].copy_from_slice(&front);
    image[8..24].copy_from_slice(&alternates);
    image[24..28].copy_from_slice(&device.halts.to_le_bytes());
    image[28..32].copy_from_slice(&device.toggles.to_le_bytes());
}

// The ranges of the state, of wakeup and of bytes 5 to 7; `paired`: two sets are lent.
fn in_range(paired: bool, device: Device) -> bool
    ensures { result ≡ in_range paired device }
{
    let speed = device.speed;
    (device.state <= CONFIGURED)
        & (device.wakeup <= 1)
        & (device.power <= 1)
        & (device.suspended <= 1)
        & ((speed == SPEED_FULL)
            | (paired & (speed % TEST_ENTERED == SPEED_HIGH) & (speed <= LAST_TEST_ENTERED)))
}

// A test mode waits: 128 plus its selector.
pub fn test_waits(device: Device) -> bool
    ensures { result ≡ test_waits device }
{
    (FIRST_TEST_WAITS <= device.waiting) & (device.waiting <= LAST_TEST_WAITS)
}

// Nothing waits; or an address, before a test mode is entered; or a test mode, at high speed.
fn good_waiting(device: Device) -> bool
    ensures { result ≡ good_waiting device }
{
    (device.waiting == NOTHING)
        | ((device.waiting <= LAST_ADDRESS) & !(IN_TEST_MODE <= device.speed))
        | (test_waits(device) & (device.speed == SPEED_HIGH))
}

// What each state asks of the address, the configuration and what waits; `there`: the set has a configuration with the record's value.
fn good_state(there: bool, device: Device) -> bool
    ensures { (v : View) → there ≡ has_value (record { 0 = device.configuration }) v.configurations → result ≡ good_state v device }
{
    let in_use = (1 <= device.address) & (device.address <= LAST_ADDRESS);
    (!(device.state == DEFAULT) | ((device.address == 0) & (device.configuration == 0)))
        & (!(device.state == ADDRESS) | (in_use & (device.configuration == 0)))
        & (!(device.state == CONFIGURED)
            | (in_use & there & ((device.waiting == NOTHING) | test_waits(device))))
}

// Whether a record fits. `survey` is of the configuration with the record's value, of no descriptors if none has it; `there`: the set has one; `waking`: some configuration supports remote wakeup; `paired`: two sets are lent.
pub fn fits(survey: Survey, there: bool, waking: bool, paired: bool, device: Device) -> bool
    ensures { (v : View) (a : Asked) → Surveys (valued v device) device.alternates a survey
        → has_value (record { 0 = 0 }) v.configurations ≡ false
        → there ≡ has_value (record { 0 = device.configuration }) v.configurations
        → waking ≡ wakes v → paired ≡ v.paired → result ≡ fits v device }
{
    let alternates = device.alternates;
    in_range(paired, device)
        & good_waiting(device)
        & good_state(there, device)
        & descriptors::survey::alternates_exist(survey.existing, survey.current, alternates)
        & octets::has_only(device.halts, survey.halting)
        & octets::has_only(device.toggles, survey.halting)
        & (!(device.wakeup == 1) | waking)
}
