// Why the device answered something else.
ghost use Rattle.std.specs.Prelude.{◌≤◌};

use crate::report::{How, Transfer};
use descriptors::types;
use requests::{FROM_DEVICE, FROM_INTERFACE, GET_DESCRIPTOR, GET_STATUS, Refusal};

// The numbers of the refusals that are explained.
// Kept: an answer holds its refusal as a number, and these are compared with it.
const REQUEST_UNKNOWN: u8 = Refusal::RequestUnknown as u8;

const DOES_NOT_EXIST: u8 = Refusal::DoesNotExist as u8;

// Bits 6-5 of bmRequestType.
const CLASS: u8 = 1;

const VENDOR: u8 = 2;

const UNEXPLAINED: &str = "unexplained";

// Each rule is about the setup bytes, our number and the two answers.
pub fn reason(transfer: Transfer) -> &'static str {
    let request_type = octets::peek(transfer.setup, 0);
    let code = octets::peek(transfer.setup, 1);
    let asked = octets::peek(transfer.setup, 3);
    if transfer.how == How::Stalled {
        return "the device stalls";
    }
    match (transfer.number, request_type, code) {
        (REQUEST_UNKNOWN, _, _) => not_built(request_type, code),
        (DOES_NOT_EXIST, FROM_DEVICE, GET_DESCRIPTOR) => no_descriptor(asked),
        (0, FROM_DEVICE, GET_STATUS) => other_status(
            octets::peek(transfer.ours, 0),
            octets::peek(transfer.recorded, 0),
        ),
        (0, FROM_DEVICE, GET_DESCRIPTOR) => other_bytes(asked, transfer.ours, transfer.recorded),
        _ => UNEXPLAINED,
    }
}

// A request that is not in the table.
fn not_built(request_type: u8, code: u8) -> &'static str {
    match request_type / 32 % 4 {
        CLASS => "a class request, and none is built",
        VENDOR => "a vendor request, and none is built",
        _ if request_type == FROM_INTERFACE && code == GET_DESCRIPTOR => {
            "a class descriptor asked of an interface, which is not built"
        }
        _ => UNEXPLAINED,
    }
}

// A descriptor that the set does not have.
fn no_descriptor(asked: u8) -> &'static str {
    if asked > types::STRING {
        return "a set has no descriptors of this type";
    }
    UNEXPLAINED
}

// Another first byte of GET_STATUS of the device.
fn other_status(ours: u8, recorded: u8) -> &'static str {
    if ours % 2 != recorded % 2 {
        return "the device has a supply of its own, of which no power event told";
    }
    if ours / 2 % 2 != recorded / 2 % 2 {
        return "the device's D1 is on, and wakeup is not supported";
    }
    UNEXPLAINED
}

// Other bytes of a descriptor.
fn other_bytes(asked: u8, ours: &[u8], recorded: &[u8]) -> &'static str {
    match asked {
        types::CONFIGURATION if differ_in_sizes(ours, recorded) => {
            "the set has packet sizes of full speed"
        }
        types::STRING => "the string was not recorded whole, so the set has another",
        _ => UNEXPLAINED,
    }
}

// Whether two configuration bodies differ in the packet sizes of their endpoints, and in nothing else.
fn differ_in_sizes(ours: &[u8], recorded: &[u8]) -> bool {
    let mut start = 0;
    for k in 0..ours.len() {
        start = start_of(ours, start, k);
        if !agree(ours, recorded, start, k) {
            return false;
        }
    }
    ours.len() == recorded.len()
}

// Where the descriptor starts that has byte k; that of the byte before starts at `start`.
fn start_of(body: &[u8], start: usize, k: usize) -> usize
    requires { start ≤ k }
    ensures { result ≤ k }
{
    if k - start < octets::peek(body, start) as usize {
        return start;
    }
    k
}

// Whether two bodies have the same byte k, or it is of an endpoint's wMaxPacketSize.
fn agree(ours: &[u8], recorded: &[u8], start: usize, k: usize) -> bool
    requires { start ≤ k }
{
    octets::peek(ours, k) == octets::peek(recorded, k)
        || matches!(k - start, 4 | 5) && octets::peek(ours, start + 1) == types::ENDPOINT
}
