// From an event on a record that fits to its reaction.
ghost use Rattle.std.specs.Prelude.{◌≡◌, ◌<◌};
ghost use Rattle.sets.specs.View.{View};
ghost use Rattle.records.specs.declared.Device.{Device};
ghost use Rattle.records.specs.Device.{with_suspended};
ghost use Rattle.events.specs.Answer.{done};
ghost use Rattle.events.specs.Step.{request, asks_test_mode, test_mode_refusal, refusal_for, answer_setup, status_end, bus_reset, power, wake, respond};
ghost use Rattle.events.specs.Requests.{digit};
ghost use Rattle.events.specs.Facts.{question_of, Tells, outcome_of, OneByte};
ghost use Rattle.requests.specs.Refusal.{number_if_refused};

use crate::facts::Facts;
use crate::reaction::{Reaction, done, refused, settling};
use crate::{Event, Refusal, halts, standard};
use records::{Change, Device};
use requests::Setup;

// The request by its code, past the table's refusals.
// Kept: `respond` and `get_status` are promised for any record with a wakeup and a power source of 0 or 1, so no type of the record carries that.
#[tactic(auto, unfolding(crate::specs::Step::request))]
fn request(facts: Facts, device: Device, setup: Setup) -> Reaction
    requires wakeup_bound { device.wakeup < 2 }
    requires power_bound { device.power < 2 }
    requires one_byte { OneByte setup }
    ensures { (v : View) → Tells v device setup facts → outcome_of result device ≡ request v device setup }
{
    match setup.bRequest {
        requests::GET_STATUS => standard::get_status(facts, device, setup),
        requests::CLEAR_FEATURE => standard::clear_feature(facts, device, setup),
        requests::SET_FEATURE => standard::set_feature(facts, device, setup),
        requests::SET_ADDRESS => standard::set_address(setup),
        requests::GET_DESCRIPTOR => standard::get_descriptor(facts, setup),
        requests::GET_CONFIGURATION => standard::get_configuration(device),
        requests::SET_CONFIGURATION => standard::set_configuration(facts, setup),
        requests::GET_INTERFACE => standard::get_interface(facts, device, setup),
        _ => standard::set_interface(facts, device, setup),
    }
}

// A setup asks for the test mode: SET_FEATURE, to the device, on a board that lends two sets.
fn asks_test_mode(paired: bool, setup: Setup) -> bool
    ensures { result ≡ asks_test_mode paired setup }
{
    (paired & (setup.wValue == standard::TEST_MODE))
        & (setup.bmRequestType == requests::TO_DEVICE)
        & (setup.bRequest == requests::SET_FEATURE)
}

// The test mode passes at high speed in every state, else where other features do; its selector is wIndex's high byte, and the low one is 0.
fn test_mode_refusal(device: Device, setup: Setup) -> Option<Refusal>
    ensures { number_if_refused result ≡ test_mode_refusal device setup }
{
    if (device.speed == records::SPEED_HIGH)
        | (device.state == records::ADDRESS)
        | (device.state == records::CONFIGURED)
    {
        let [low, _] = setup.wIndex.to_le_bytes();
        if (low == 0) & (setup.wLength == 0) {
            return None;
        }
        return Some(Refusal::FieldWrong);
    }
    Some(Refusal::NotInThisState)
}

// What refuses a setup before its request is asked. The table judges every setup but that of the test mode.
fn refusal_for(paired: bool, device: Device, setup: Setup) -> Option<Refusal>
    ensures { number_if_refused result ≡ refusal_for paired device setup }
{
    if asks_test_mode(paired, setup) {
        return test_mode_refusal(device, setup);
    }
    requests::refusal(device.state, setup)
}

// A setup: what waits is dropped, and the device is awake; then the refusal of an entered test mode, the table's refusal, or the request.
// Kept: the facts, the record and the setup go side by side, as to the requests (`standard`), each of which is lent only those that it reads.
#[tactic(auto, using(crate::proofs::Rows::one_byte_for), unfolding(crate::specs::Step::answer_setup))]
fn answer_setup(facts: Facts, device: Device, setup: Setup) -> Reaction
    requires wakeup_bound { device.wakeup < 2 }
    requires power_bound { device.power < 2 }
    ensures { (v : View) → Tells v device setup facts → outcome_of result device ≡ answer_setup v device setup }
{
    if records::IN_TEST_MODE <= device.speed {
        return settling(refused(Refusal::TestModeEntered));
    }
    match refusal_for(facts.paired, device, setup) {
        Some(refusal) => settling(refused(refusal)),
        None => settling(request(facts, records::settled(device), setup)),
    }
}

// The status stage of a request has ended: a waiting address is taken, a waiting test mode is entered.
#[tactic(auto, unfolding(crate::specs::Step::status_end))]
fn status_end(device: Device) -> Reaction
    ensures { outcome_of result device ≡ status_end device }
{
    let waiting = device.waiting;
    if waiting == records::NOTHING {
        return done(Change::Kept);
    }
    if records::test_waits(device) {
        let speed = records::SPEED_HIGH + records::TEST_ENTERED * (waiting - records::TEST_WAITING);
        return done(Change::TestMode(speed));
    }
    let state = if waiting == 0 {
        records::DEFAULT
    } else {
        records::ADDRESS
    };
    done(Change::Address {
        state,
        address: waiting,
    })
}

// The bus was reset, to a speed that the board has: the power source stays. An entered test mode stays as it is.
fn bus_reset(paired: bool, speed: u8, device: Device) -> Reaction
    ensures { (v : View) → paired ≡ v.paired → outcome_of result device ≡ bus_reset v device speed }
{
    if (speed == records::SPEED_FULL) | (paired & (speed == records::SPEED_HIGH)) {
        if records::IN_TEST_MODE <= device.speed {
            return done(Change::Kept);
        }
        return done(Change::Fresh {
            power: device.power,
            speed,
        });
    }
    refused(Refusal::EndpointUnfit)
}

// The power source has changed, or was found.
fn power(source: u8) -> Reaction
    ensures { (d : Device) → outcome_of result d ≡ power d source }
{
    if source <= 1 {
        return done(Change::Power(source));
    }
    refused(Refusal::EndpointUnfit)
}

// The device is suspended from now on, or is not.
fn suspended(on: bool) -> Reaction
    ensures { (d : Device) → outcome_of result d ≡ done (with_suspended (digit on) d) }
{
    done(Change::Suspended(on as u8))
}

// The device asks to wake the host: it may, if it is suspended and wakeup is on.
fn wake(device: Device) -> Reaction
    ensures { outcome_of result device ≡ wake device }
{
    if (device.suspended == 1) & (device.wakeup == 1) {
        return done(Change::Kept);
    }
    refused(Refusal::WakeNotAllowed)
}

// Every event.
pub fn respond(facts: Facts, device: Device, event: Event) -> Reaction
    requires wakeup_bound { device.wakeup < 2 }
    requires power_bound { device.power < 2 }
    ensures { (v : View) → Tells v device (question_of event) facts → outcome_of result device ≡ respond v device event }
{
    let endpoint = facts.survey.endpoint;
    match event {
        Event::Request(setup) => answer_setup(facts, device, setup),
        Event::Malformed => refused(Refusal::SetupLengthWrong),
        Event::StatusEnd => status_end(device),
        Event::BusReset(speed) => bus_reset(facts.paired, speed, device),
        Event::Halt(_) => halts::halt(endpoint, device),
        Event::PacketPassed(_) => halts::packet_passed(endpoint, device),
        Event::Power(source) => power(source),
        Event::Suspend => suspended(true),
        Event::Resume => suspended(false),
        Event::Wake => wake(device),
    }
}
