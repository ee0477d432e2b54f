// What happens to a device, and what it answers.
#![tactic(auto)]

ghost use Rattle.std.specs.Prelude.{◌≡◌};
ghost use Rattle.events.specs.Step.{setup_event};

use records::Device;
pub use requests::Refusal;
use requests::Setup;

pub mod facts;
pub mod halts;
pub mod reaction;
pub mod reply;
pub mod respond;
pub mod standard;

const SETUP_LENGTH: usize = 8;

// An event: a setup of eight bytes, a setup of any other length, or one of the eight others.
#[derive(Clone, Copy)]
pub enum Event {
    Request(Setup),
    Malformed,
    StatusEnd,
    BusReset(u8),
    Halt(u8),
    PacketPassed(u8),
    Power(u8),
    Suspend,
    Resume,
    Wake,
}

// What an event answers: done, with no, one or two bytes; the part of the set from `offset` on; the serial block's first bytes; or a
// refusal. Offset and length are those of an accepted set: small, so that an answer takes little of the stack.
#[derive(Clone, Copy)]
pub enum Answer {
    Done,
    OneByte(u8),
    TwoBytes(u8, u8),
    SetPart { offset: u16, length: u16 },
    SerialPart { length: u16 },
    // Kept: a number and no Refusal, since `reply::number`, `bytes_of` and `part` promise of every answer, and docs/TRACE.md names them.
    Refused(u8),
}

// An event's answer, and the record that it leaves.
#[derive(Clone, Copy)]
pub struct Outcome {
    pub answer: Answer,
    pub device: Device,
}

// The event that setup bytes are, of any length.
pub fn setup_event(bytes: &[u8]) -> Event
    ensures { result ≡ setup_event bytes.now }
{
    if bytes.len() == SETUP_LENGTH {
        return Event::Request(requests::setup_of(bytes));
    }
    Event::Malformed
}
