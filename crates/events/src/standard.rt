// The standard requests, past the table's refusals: each is a function of the facts, the record and the setup, and its contract says that for every
// view of which the facts are true the outcome is the definition's.
// Kept: the facts, the record and the setup go side by side, since a request is lent only those that it reads.
ghost use Rattle.std.specs.Prelude.{◌≡◌, ◌<◌};
ghost use Rattle.sets.specs.View.{View, has_value, wakes};
ghost use Rattle.records.specs.declared.Device.{Device};
ghost use Rattle.events.specs.Requests.{digit, get_status, device_feature, set_test_mode, endpoint_feature, clear_feature, set_feature, set_address, locate, get_descriptor, get_configuration, set_configuration, get_interface, set_interface};
ghost use Rattle.events.specs.Facts.{Tells, with_halt, feature, outcome_of};

use crate::facts::{Facts, Located};
use crate::reaction::{Reaction, done, gives, refused};
use crate::{Answer, Refusal, halts};
use records::{Change, Device};
use requests::Setup;

// The feature selectors of USB 2.0's table 9-6.
const ENDPOINT_HALT: u16 = 0;

const DEVICE_REMOTE_WAKEUP: u16 = 1;

pub const TEST_MODE: u16 = 2;

// GET_STATUS: of the device its power source and wakeup, of an interface 0, of an endpoint its halt.
// Kept: it is promised for any record with a wakeup and a power source of 0 or 1 (docs/TRACE.md), so no type of the record carries that.
#[tactic(auto, unfolding(crate::specs::Requests::get_status))]
pub fn get_status(facts: Facts, device: Device, setup: Setup) -> Reaction
    requires wakeup_bound { device.wakeup < 2 }
    requires power_bound { device.power < 2 }
    ensures { (v : View) → Tells v device setup facts → outcome_of result device ≡ get_status v device setup }
{
    let recipient = setup.bmRequestType % 32;
    if recipient == requests::DEVICE {
        return gives(Answer::TwoBytes(device.power + 2 * device.wakeup, 0));
    }
    if recipient == requests::INTERFACE {
        if facts.interface {
            return gives(Answer::TwoBytes(0, 0));
        }
        return refused(Refusal::DoesNotExist);
    }
    if halts::is_zero(setup.wIndex) {
        return gives(Answer::TwoBytes(0, 0));
    }
    match facts.survey.endpoint {
        Some(e) => gives(Answer::TwoBytes(halts::is_halted(device, e) as u8, 0)),
        None => refused(Refusal::DoesNotExist),
    }
}

// The device's feature: wakeup, if the device can wake the host.
fn device_feature(on: bool, facts: Facts, setup: Setup) -> Reaction
    ensures { (v : View) (d : Device) → facts.waking ≡ wakes v → outcome_of result d ≡ device_feature (digit on) v d setup }
{
    if (setup.wValue == DEVICE_REMOTE_WAKEUP) & facts.waking {
        return done(Change::Wakeup(on as u8));
    }
    refused(Refusal::NoSuchFeature)
}

// The test mode that wIndex's high byte selects: it waits for the status end, at high speed alone.
fn set_test_mode(device: Device, setup: Setup) -> Reaction
    ensures { outcome_of result device ≡ set_test_mode device setup }
{
    let [_, selector] = setup.wIndex.to_le_bytes();
    if (device.speed == records::SPEED_HIGH)
        & (1 <= selector)
        & (selector <= records::LAST_TEST_MODE)
    {
        return done(Change::Waiting(records::TEST_WAITING + selector));
    }
    refused(Refusal::NoSuchFeature)
}

// An endpoint's feature: its halt.
fn endpoint_feature(on: bool, facts: Facts, device: Device, setup: Setup) -> Reaction
    ensures { (v : View) → Tells v device setup facts → outcome_of result device ≡ endpoint_feature (with_halt on) v device setup }
{
    if halts::is_zero(setup.wIndex) {
        return refused(Refusal::NoSuchFeature);
    }
    match facts.survey.endpoint {
        None => refused(Refusal::DoesNotExist),
        Some(e) if (setup.wValue == ENDPOINT_HALT) & halts::can_halt(e) => {
            done(halts::with_halt(on, device, e))
        }
        Some(_) => refused(Refusal::NoSuchFeature),
    }
}

// A feature of the recipient, set or cleared; an interface has none.
fn feature(on: bool, facts: Facts, device: Device, setup: Setup) -> Reaction
    ensures { (v : View) → Tells v device setup facts → outcome_of result device ≡ feature on v device setup }
{
    let recipient = setup.bmRequestType % 32;
    if recipient == requests::DEVICE {
        if on & (facts.paired & (setup.wValue == TEST_MODE)) {
            return set_test_mode(device, setup);
        }
        return device_feature(on, facts, setup);
    }
    if recipient == requests::INTERFACE {
        if facts.interface {
            return refused(Refusal::NoSuchFeature);
        }
        return refused(Refusal::DoesNotExist);
    }
    endpoint_feature(on, facts, device, setup)
}

// CLEAR_FEATURE
#[tactic(auto, unfolding(crate::specs::Requests::clear_feature))]
pub fn clear_feature(facts: Facts, device: Device, setup: Setup) -> Reaction
    ensures { (v : View) → Tells v device setup facts → outcome_of result device ≡ clear_feature v device setup }
{
    feature(false, facts, device, setup)
}

// SET_FEATURE
#[tactic(auto, unfolding(crate::specs::Requests::set_feature))]
pub fn set_feature(facts: Facts, device: Device, setup: Setup) -> Reaction
    ensures { (v : View) → Tells v device setup facts → outcome_of result device ≡ set_feature v device setup }
{
    feature(true, facts, device, setup)
}

// SET_ADDRESS: the address waits for the status end.
#[tactic(auto, unfolding(crate::specs::Requests::set_address))]
pub fn set_address(setup: Setup) -> Reaction
    requires { setup.wValue < 256 }
    ensures { (v : View) (d : Device) → outcome_of result d ≡ set_address v d setup }
{
    done(Change::Waiting(setup.wValue as u8))
}

// GET_DESCRIPTOR: never more than wLength bytes, from the start of the body.
#[tactic(auto, unfolding(crate::specs::Requests::get_descriptor))]
pub fn get_descriptor(facts: Facts, setup: Setup) -> Reaction
    ensures { (v : View) (d : Device) → facts.located ≡ locate v setup → outcome_of result d ≡ get_descriptor v d setup }
{
    match facts.located {
        Located::Body { offset, length } => gives(Answer::SetPart {
            offset,
            length: length.min(setup.wLength),
        }),
        Located::Serial { length } => gives(Answer::SerialPart {
            length: length.min(setup.wLength),
        }),
        Located::Nowhere => refused(Refusal::DoesNotExist),
    }
}

// GET_CONFIGURATION
#[tactic(auto, unfolding(crate::specs::Requests::get_configuration))]
pub fn get_configuration(device: Device) -> Reaction
    ensures { (v : View) (s : Setup) → outcome_of result device ≡ get_configuration v device s }
{
    gives(Answer::OneByte(device.configuration))
}

// SET_CONFIGURATION by value; 0 leads to Address.
#[tactic(auto, unfolding(crate::specs::Requests::set_configuration))]
pub fn set_configuration(facts: Facts, setup: Setup) -> Reaction
    requires { setup.wValue < 256 }
    ensures { (v : View) (d : Device) → facts.configuration ≡ has_value (record { 0 = setup.wValue }) v.configurations → outcome_of result d ≡ set_configuration v d setup }
{
    let value = setup.wValue as u8;
    if value == 0 {
        return done(Change::Configuration {
            state: records::ADDRESS,
            value: 0,
        });
    }
    if facts.configuration {
        return done(Change::Configuration {
            state: records::CONFIGURED,
            value,
        });
    }
    refused(Refusal::DoesNotExist)
}

// GET_INTERFACE
#[tactic(auto, unfolding(crate::specs::Requests::get_interface))]
pub fn get_interface(facts: Facts, device: Device, setup: Setup) -> Reaction
    ensures { (v : View) → Tells v device setup facts → outcome_of result device ≡ get_interface v device setup }
{
    if facts.interface {
        let alternate = octets::peek(&device.alternates, setup.wIndex as usize);
        return gives(Answer::OneByte(alternate));
    }
    refused(Refusal::DoesNotExist)
}

// SET_INTERFACE: halts and toggles of the endpoints of the old and the new setting are cleared. A setting that is there has small numbers.
#[tactic(auto, unfolding(crate::specs::Requests::set_interface))]
pub fn set_interface(facts: Facts, device: Device, setup: Setup) -> Reaction
    ensures { (v : View) → Tells v device setup facts → outcome_of result device ≡ set_interface v device setup }
{
    let survey = facts.survey;
    if survey.there {
        // Kept: `% 16` shows that the casts lose nothing; it changes no number, since those of a setting that is there are small.
        return done(Change::Setting {
            interface: (setup.wIndex % 16) as u8,
            alternate: (setup.wValue % 16) as u8,
            halts: halts::without(device.halts, survey.bits),
            toggles: halts::without(device.toggles, survey.bits),
        });
    }
    refused(Refusal::DoesNotExist)
}
