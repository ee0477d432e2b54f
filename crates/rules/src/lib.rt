// The rules of opening one by one: which is the first that a set breaks, and where. For a bench computer.
#![tactic(auto, unfolding(crate::specs::After::after))]

mod body;
pub mod configuration;
pub mod device;
pub mod frame;
mod judge;
pub mod languages;
pub mod progress;
pub mod string;

ghost use Rattle.std.specs.Prelude.{◌≡◌};
ghost use Rattle.rules.specs.Findings.{asked, byte_at};
ghost use Rattle.octets.specs.Sentences.{first};
ghost use Rattle.rules.specs.Explained.{findings, is_broken, explained, inside};
ghost use Rattle.rules.specs.After.{told_of, fault_in, told};
ghost use Rattle.sets.specs.Opening.{lent};

use descriptors::limits::Limits;
use sets::opening::{Broken, opening};

// A broken rule and the byte where a maker has to look.
// Kept: a rule goes by its number, since hk_explain gives it, makers' documents print it, and makers/explain has the words.
#[derive(Clone, Copy)]
pub struct Fault {
    pub rule: u16,
    pub place: u32,
}

// What a maker is told of what is refused: the group, the first rule that is broken, and the byte of the set, or of the serial block in group 6.
#[derive(Clone, Copy)]
pub struct Explained {
    pub broken: Broken,
    pub rule: u16,
    pub place: u32,
}

// Where a thing begins that is asked about: at `at` of what begins at `start`.
#[derive(Clone, Copy)]
pub struct Place {
    pub start: u16,
    pub at: u16,
}

impl Place {
    // One rule is asked of byte k: the fault, where it does not hold.
    #[tactic(auto, unfolding(crate::specs::After::told_of))]
    pub fn ask(self, rule: u16, k: u8, holds: bool) -> Option<Fault>
        ensures { result ≡ told_of (asked rule (byte_at self.start self.at k) holds) }
    {
        if holds {
            return None;
        }
        let place = self.start as u32 + self.at as u32 + k as u32;
        Some(Fault { rule, place })
    }
}

// A place among some bytes: past their end it is the last of them.
pub fn place_inside(bytes: &[u8], place: u32) -> u32
    ensures { result ≡ inside bytes.now place }
{
    (place as usize).min(bytes.len().saturating_sub(1)) as u32
}

// The first rule that a set and its serial block break, and the byte where it is broken, wherever that lies.
pub fn first_fault(set: &[u8], serial: &[u8], limits: Limits) -> Option<Fault>
    ensures { result ≡ fault_in (first is_broken (findings limits (lent set.now serial.now))) }
{
    let index = sets::device::serial_index(set);
    let found = frame::frame_fault(set);
    let found = found.or(frame::contents_fault(set, limits));
    let found = found.or(device::device_fault(set, limits));
    let found = found.or(configuration::configurations_fault(set, limits));
    let found = found.or(string::strings_fault(set));
    found.or(device::serial_fault(index, serial))
}

// Whether what is lent may be opened, or else the first rule that is broken.
pub fn explain(set: &[u8], serial: &[u8], limits: Limits) -> Result<(), Explained>
    ensures { told result ≡ explained limits (lent set.now serial.now) }
{
    match opening(set, serial, limits) {
        Ok(()) => Ok(()),
        Err(broken) => {
            // Opening refuses, and so a rule is broken.
            let fault = first_fault(set, serial, limits).unwrap();
            let about = match broken {
                Broken::Serial => serial,
                _ => set,
            };
            Err(Explained {
                broken,
                rule: fault.rule,
                place: place_inside(about, fault.place),
            })
        }
    }
}
