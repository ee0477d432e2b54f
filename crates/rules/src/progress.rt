// How far the check of a body is, a descriptor at a time.
ghost use Rattle.std.specs.Prelude.{◌≡◌};
ghost use Rattle.octets.specs.Sentences.{pick};
ghost use Rattle.descriptors.specs.Descriptor.{is_interface};
ghost use Rattle.descriptors.specs.Check.{at_interface, at_endpoint, onward};
ghost use Rattle.rules.specs.Configuration.{progress_in};

use descriptors::lookup::bit_of;
use descriptors::types::{ENDPOINT, INTERFACE};
use descriptors::walk::Stand;

// How far the check of a body is, as its definition keeps it: how many endpoints of this setting are still to come, and where the interface descriptor
// begins that says so; and, a bit for each address, the addresses of this setting, of this interface's settings, and of all that was seen.
// Where it stands is the step's to say.
#[derive(Clone, Copy, Default)]
pub struct Progress {
    pub head: u16,
    pub coming: u8,
    pub setting: u32,
    pub interface: u32,
    pub seen: u32,
}

// The setting in which the descriptor before stands, and its own.
#[derive(Clone, Copy)]
pub struct Passage {
    pub last: Stand,
    pub stand: Stand,
}

impl Progress {
    // After an interface descriptor, which begins at `at`: a new setting begins, and with another number a new interface.
    fn at_interface(self, d: &[u8], at: u16, passage: Passage) -> Progress
        ensures goes { progress_in result ≡ at_interface (progress_in self) passage.last passage.stand d.now }
        ensures head { result.head ≡ at }
    {
        let interface = if passage.stand.interface == passage.last.interface {
            self.interface
        } else {
            0
        };
        Progress {
            head: at,
            coming: octets::peek(d, 4),
            setting: 0,
            interface,
            seen: self.seen,
        }
    }

    // After an endpoint descriptor.
    fn at_endpoint(self, d: &[u8]) -> Progress
        ensures goes { progress_in result ≡ at_endpoint (progress_in self) d.now }
        ensures head { result.head ≡ self.head }
    {
        let e = bit_of(octets::peek(d, 2));
        Progress {
            head: self.head,
            coming: self.coming.saturating_sub(1),
            setting: octets::set_bit(self.setting, e),
            interface: octets::set_bit(self.interface, e),
            seen: octets::set_bit(self.seen, e),
        }
    }

    // After any descriptor, which begins at `at`.
    pub fn move_on(self, d: &[u8], at: u16, passage: Passage) -> Progress
        ensures goes { progress_in result ≡ onward (progress_in self) passage.last passage.stand d.now }
        ensures head { result.head ≡ pick (is_interface d.now) at self.head }
    {
        match octets::peek(d, 1) {
            INTERFACE => self.at_interface(d, at, passage),
            ENDPOINT => self.at_endpoint(d),
            _ => self,
        }
    }
}
