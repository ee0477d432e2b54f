// Halts and toggles of endpoints, and the function's two events.
ghost use Rattle.std.specs.Prelude.{◌≡◌, ◌&&◌, List, ℕ};
ghost use Rattle.octets.specs.Bit.{bit, flip_bit};
ghost use Rattle.descriptors.specs.declared.Endpoint.{Endpoint};
ghost use Rattle.descriptors.specs.Configuration.{can_halt, bit_of, cleared};
ghost use Rattle.descriptors.specs.Lookup.{found, bits_of};
ghost use Rattle.sets.specs.View.{View};
ghost use Rattle.records.specs.Device.{awake, with_endpoints};
ghost use Rattle.records.specs.Change.{changed};
ghost use Rattle.records.specs.Current.{endpoint_at};
ghost use Rattle.events.specs.Requests.{is_endpoint_zero};
ghost use Rattle.events.specs.Step.{halt, packet_passed};
ghost use Rattle.events.specs.Facts.{with_halt, outcome_of};

use crate::Refusal;
use crate::reaction::{Reaction, done, refused};
use descriptors::Endpoint;
use descriptors::lookup::bit_of;
use records::{Change, Device};

// The addresses of endpoint zero.
const ZERO_OUT: u16 = 0x00;

const ZERO_IN: u16 = 0x80;

// The transfer types in bits 1-0 of bmAttributes, from this one on: bulk, interrupt.
// Kept: two bits of a descriptor's byte that are compared once, and handed on to nobody.
const BULK: u8 = 2;

// Endpoint zero, by either of its addresses.
pub fn is_zero(index: u16) -> bool
    ensures { result ≡ is_endpoint_zero index }
{
    (index == ZERO_OUT) | (index == ZERO_IN)
}

// Bulk or interrupt.
pub fn can_halt(endpoint: Endpoint) -> bool
    ensures { result ≡ can_halt endpoint }
{
    BULK <= endpoint.attributes % 4
}

// Whether an endpoint is halted: one that cannot halt is not.
pub fn is_halted(device: Device, endpoint: Endpoint) -> bool
    ensures { result ≡ (can_halt endpoint && bit device.halts (bit_of endpoint.address)) }
{
    let k = bit_of(endpoint.address);
    can_halt(endpoint) & octets::test_bit(device.halts, k)
}

// An endpoint is halted, its toggle kept; or its halt and its toggle are cleared.
pub fn with_halt(on: bool, device: Device, endpoint: Endpoint) -> Change
    ensures { changed result device ≡ with_halt on device (bit_of endpoint.address) }
{
    let k = bit_of(endpoint.address);
    if on {
        return Change::Endpoints {
            halts: octets::set_bit(device.halts, k),
            toggles: device.toggles,
        };
    }
    Change::Endpoints {
        halts: octets::clear_bit(device.halts, k),
        toggles: octets::clear_bit(device.toggles, k),
    }
}

// An endpoint's toggle flips, and the device is awake.
fn with_toggle(device: Device, endpoint: Endpoint) -> Change
    ensures { changed result device ≡ awake (with_endpoints device.alternates device.halts (flip_bit device.toggles (bit_of endpoint.address)) device) }
{
    let k = bit_of(endpoint.address);
    Change::Passed {
        toggles: octets::flip_bit(device.toggles, k),
    }
}

// A word with the bits of some endpoints cleared.
pub fn without(word: u32, bits: u32) -> u32
    ensures { (es : List Endpoint) → bits ≡ bits_of es → result ≡ cleared es word }
{
    octets::without(word, bits)
}

// The function halts an endpoint.
#[tactic(auto, unfolding(crate::specs::Step::halt))]
pub fn halt(endpoint: Option<Endpoint>, device: Device) -> Reaction
    ensures { (v : View) (a : ℕ) → endpoint ≡ found (endpoint_at v device a) → outcome_of result device ≡ halt v device a }
{
    match endpoint {
        Some(e) if can_halt(e) => done(with_halt(true, device, e)),
        _ => refused(Refusal::EndpointUnfit),
    }
}

// A packet has passed at an endpoint: its toggle flips.
#[tactic(auto, unfolding(crate::specs::Step::packet_passed))]
pub fn packet_passed(endpoint: Option<Endpoint>, device: Device) -> Reaction
    ensures { (v : View) (a : ℕ) → endpoint ≡ found (endpoint_at v device a) → outcome_of result device ≡ packet_passed v device a }
{
    match endpoint {
        Some(e) if can_halt(e) & !is_halted(device, e) => done(with_toggle(device, e)),
        _ => refused(Refusal::EndpointUnfit),
    }
}
