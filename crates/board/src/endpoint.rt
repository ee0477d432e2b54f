// The endpoints of the current settings, for a board that opens them.
// Kept: the C interface names the parameters of the hk_ functions; inner ones are lent them side by side, since a struct would lend slices by address.
ghost use Rattle.std.specs.Prelude.{◌≡◌, true};
ghost use Rattle.sets.specs.Opening.{lent};
ghost use Rattle.events.specs.Coded.{answer_in};
ghost use Rattle.steps.specs.Gathering.{Openable, view_in, endpoint_on_in};
ghost use Rattle.board.specs.Exports.{spot_of, spots, GivesEndpoint};

use events::{Answer, Refusal, reply};
use records::IMAGE_LENGTH;

// The answer, on an image of any length. `accepted`: what is lent opens, which is asked before this frame stands, to spare the stack. `set` is the set
// in use, one of two if `paired`.
// Kept: that the slices open goes beside them as `accepted`: a struct lends slices by address, 16 bytes of stack at each level.
pub fn answer_on(
    accepted: bool,
    paired: bool,
    set: &[u8],
    serial: &[u8],
    image: &[u8],
    number: u8,
) -> Answer
    requires { accepted ≡ true → Openable set.now serial.now }
    ensures { answer_in result ≡ endpoint_on_in accepted (view_in paired set.now serial.now) set.now image.now number }
{
    if image.len() != IMAGE_LENGTH {
        if accepted {
            return Answer::Refused(Refusal::RecordDoesNotFit as u8);
        }
        return Answer::Refused(Refusal::SetNotAcceptable as u8);
    }
    steps::current::endpoint(accepted, paired, set, serial, records::load(image), number)
}

// Endpoint descriptor `number` of the current settings, from 0 on: a part of the set, and no copy.
#[unsafe(no_mangle)]
pub extern "C" fn hk_endpoint<'a>(
    set: &'a [u8],
    serial: &'a [u8],
    image: &[u8],
    number: u8,
    descriptor: &mut &'a [u8],
) -> u8
    ensures { GivesEndpoint (lent set.now serial.now) (spots (spot_of set.entry.ref_ptr) (spot_of serial.entry.ref_ptr)) image.now number
        result descriptor.new.now (spot_of descriptor.new.ref_ptr) }
{
    let accepted = crate::opened(set, serial);
    let answer = answer_on(accepted, false, set, serial, image, number);
    *descriptor = reply::part(set, set, serial, answer);
    reply::number(answer)
}
