// The endpoint descriptors of the current settings, counted from 0: for a board that opens its endpoints.
ghost use Rattle.std.specs.Prelude.{◌≡◌, ◌≤◌, true};
ghost use Rattle.events.specs.Coded.{answer_in};
ghost use Rattle.steps.specs.Gathering.{Openable, view_in, endpoint_in, ending, standing};

use crate::facts;
use descriptors::endpoints::DescriptorPlace;
use descriptors::{ConfigurationValue, endpoints, survey};
use events::{Answer, Refusal};
use records::Device;
use sets::{Entry, configuration};

// A descriptor that was found in an entry's body, as a part of the set.
fn part_of(entry: Option<Entry>, found: Option<DescriptorPlace>) -> Answer
    requires { ending entry found ≤ 65535 }
    ensures { answer_in result ≡ standing entry found }
{
    match (entry, found) {
        (Some(e), Some(place)) => Answer::SetPart {
            offset: e.offset + place.offset as u16,
            length: place.length as u16,
        },
        _ => Answer::Refused(Refusal::EndpointUnfit as u8),
    }
}

// The nth from 0 on, on a board that was checked: `accepted`: what is lent opens; `set` is the set in use, one of two if `paired`. Opening
// is asked before this frame stands, to spare the stack.
// Kept: set, serial block and whether they open go side by side: a struct lends slices by address, 16 bytes of stack at each level.
pub fn endpoint(
    accepted: bool,
    paired: bool,
    set: &[u8],
    serial: &[u8],
    device: Device,
    nth: u8,
) -> Answer
    requires { accepted ≡ true → Openable set.now serial.now }
    ensures { answer_in result ≡ endpoint_in accepted (view_in paired set.now serial.now) set.now device nth }
{
    if !accepted {
        return Answer::Refused(Refusal::SetNotAcceptable as u8);
    }
    let selected = configuration::by_value(set, ConfigurationValue(device.configuration));
    let body = facts::body_found(set, selected);
    let alternates = device.alternates;
    let nothing = survey::Asked {
        address: 0,
        interface: 0,
        alternate: 0,
    };
    let survey = survey::walk(body, alternates, nothing);
    if !records::fits(
        survey,
        selected.is_some(),
        configuration::wakes(set),
        paired,
        device,
    ) {
        return Answer::Refused(Refusal::RecordDoesNotFit as u8);
    }
    if device.state != records::CONFIGURED {
        return Answer::Refused(Refusal::EndpointUnfit as u8);
    }
    part_of(selected, endpoints::find(body, alternates, nth))
}
