// The step of a device: the set or the two sets and the serial block that are lent are checked, then the record, and then the event is answered.
#![tactic(auto)]

ghost use Rattle.std.specs.Prelude.{◌≡◌, true, eqb, length};
ghost use Rattle.octets.specs.Sentences.{pick};
ghost use Rattle.sets.specs.Opening.{lent};
ghost use Rattle.sets.specs.Broken.{opened_number};
ghost use Rattle.sets.specs.View.{View, opening_of, accepted as opens};
ghost use Rattle.records.specs.Image.{device_of};
ghost use Rattle.records.specs.Change.{record_in};
ghost use Rattle.events.specs.Answer.{gives};
ghost use Rattle.events.specs.Coded.{answer_in, outcome_in};
ghost use Rattle.events.specs.Facts.{outcome_of};
ghost use Rattle.events.specs.Step.{step};
ghost use Rattle.steps.specs.Gathering.{Openable, view_in, step_in, event_in};
ghost use Rattle.steps.specs.Selected.{Told};

use crate::facts::{Selected, Sought};
use events::reaction::Reaction;
use events::{Answer, Event, Outcome, Refusal, reaction};
use records::{Device, renewal};
use sets::opening::Broken;

pub mod current;
pub mod facts;

// Opening, at base speed: the first group that is broken, if one is.
pub fn opening(set: &[u8], serial: &[u8]) -> Result<(), Broken>
    ensures { opened_number result ≡ opening_of (lent set.now serial.now) }
{
    sets::opening::opening(set, serial, descriptors::limits::full_speed())
}

// The set in use, of two: byte 7 of the record says which. It is no copy.
pub fn in_use<'a>(full: &'a [u8], high: &'a [u8], speed: u8) -> &'a [u8]
    ensures bytes { result.now ≡ pick (eqb speed 0) full.now high.now }
    ensures block { result.ref_ptr.0 ≡ pick (eqb speed 0) full.entry.ref_ptr.0 high.entry.ref_ptr.0 }
    ensures offset { result.ref_ptr.1 ≡ pick (eqb speed 0) full.entry.ref_ptr.1 high.entry.ref_ptr.1 }
{
    if speed == records::SPEED_FULL {
        return full;
    }
    high
}

// The reaction to an event at the record of an image, from what is known of the set in use and what was sought in it.
fn reaction_to(
    accepted: bool,
    paired: bool,
    image: &[u8],
    event: Event,
    known: Selected,
    sought: Sought,
) -> Reaction
    requires { accepted ≡ true → (v : View) × Told v paired (record_in image.now) event known sought }
    ensures { (v : View) → (accepted ≡ true → Told v paired (record_in image.now) event known sought)
        → outcome_of result (record_in image.now) ≡ step_in accepted v (record_in image.now) event }
{
    if !accepted {
        return reaction::refused(Refusal::SetNotAcceptable);
    }
    let device = records::read(image);
    if !records::fits(known.survey, known.configured, known.waking, paired, device) {
        return reaction::refused(Refusal::RecordDoesNotFit);
    }
    let facts = facts::gather(paired, event, known, sought);
    events::respond::respond(facts, device, event)
}

// An event on an image of any length, from what is known of the set in use and what was sought in it: it is answered, and the image renewed. No set is lent here, to spare the stack.
// Kept: what is known and what was sought are asked one after the other, to spare the stack; as two Options they would say twice what `accepted` says once.
pub fn react(
    accepted: bool,
    paired: bool,
    image: &mut [u8],
    event: Event,
    known: Selected,
    sought: Sought,
) -> Answer
    requires { accepted ≡ true → (v : View) × Told v paired (record_in image.old) event known sought }
    ensures answer { (v : View) → (accepted ≡ true → Told v paired (record_in image.old) event known sought) → answer_in result ≡ (event_in accepted v image.old event).answer }
    ensures image { (v : View) → (accepted ≡ true → Told v paired (record_in image.old) event known sought) → image.new ≡ (event_in accepted v image.old event).image }
    ensures device { (v : View) → (accepted ≡ true → Told v paired (record_in image.old) event known sought) → length image.old ≡ 32
        → gives (answer_in result) (device_of image.new) ≡ step_in accepted v (device_of image.old) event }
{
    let reaction = reaction_to(accepted, paired, image, event, known, sought);
    renewal::renew(image, reaction.settles, reaction.next);
    reaction.answer
}

// The step on a board that lends one set and was checked.
// Kept: set, serial block and whether they open go side by side: a struct lends slices by address, 16 bytes of stack at each level.
#[tactic(auto, using(crate::proofs::Images::image_back))]
fn step_opened(accepted: bool, set: &[u8], serial: &[u8], device: Device, event: Event) -> Outcome
    requires { accepted ≡ opens (lent set.now serial.now) }
    ensures { outcome_in result ≡ step (lent set.now serial.now) device event }
{
    let mut image = [0u8; 32];
    records::store(device, &mut image[..]);
    let answer = reply(accepted, set, serial, &mut image, event);
    Outcome {
        answer,
        device: records::laid(&image),
    }
}

// The step, opening included.
pub fn step(set: &[u8], serial: &[u8], device: Device, event: Event) -> Outcome
    ensures { outcome_in result ≡ step (lent set.now serial.now) device event }
{
    step_opened(opening(set, serial).is_ok(), set, serial, device, event)
}

// An event on the image of a record, on a board that was checked; `paired`: `set` is one of two. It is a caller of `learn` beside the board's, so that `learn`
// stays a function of its own on x86-64.
pub fn reply_in(
    accepted: bool,
    paired: bool,
    set: &[u8],
    serial: &[u8],
    image: &mut [u8; 32],
    event: Event,
) -> Answer
    requires { accepted ≡ true → Openable set.now serial.now }
    ensures { gives (answer_in result) (device_of image.new) ≡ step_in accepted (view_in paired set.now serial.now) (device_of image.old) event }
{
    if !accepted {
        return Answer::Refused(Refusal::SetNotAcceptable as u8);
    }
    let known = facts::learn(true, set, serial, &image[..], event);
    let sought = facts::seek(true, set, serial, event);
    react(true, paired, &mut image[..], event, known, sought)
}

// The same, of a board that lends one set.
#[tactic(auto, using(crate::proofs::Steps::step_in_lem))]
fn reply(accepted: bool, set: &[u8], serial: &[u8], image: &mut [u8; 32], event: Event) -> Answer
    requires { accepted ≡ opens (lent set.now serial.now) }
    ensures { gives (answer_in result) (device_of image.new) ≡ step (lent set.now serial.now) (device_of image.old) event }
{
    reply_in(accepted, false, set, serial, image, event)
}

// Four bytes of a record get a value, as `renewal::put` gives one to a byte: it is stored if they have another.
// Kept: a generic `put` knows no more of `==` than that it is an equivalence, and so could not promise the value.
fn put_four(field: &mut u32, next: u32)
    ensures { field.new ≡ next }
{
    if *field != next {
        *field = next;
    }
}

// The record becomes that of an image: a field that becomes another is stored where it stands, and of the settings each by itself.
pub fn keep(device: &mut Device, image: &[u8; 32])
    ensures { device.new ≡ device_of image.now }
{
    renewal::put_settings(&mut device.alternates, image);
    let next = records::laid(image);
    renewal::put(&mut device.state, next.state);
    renewal::put(&mut device.address, next.address);
    renewal::put(&mut device.waiting, next.waiting);
    renewal::put(&mut device.configuration, next.configuration);
    renewal::put(&mut device.wakeup, next.wakeup);
    renewal::put(&mut device.power, next.power);
    renewal::put(&mut device.suspended, next.suspended);
    renewal::put(&mut device.speed, next.speed);
    put_four(&mut device.halts, next.halts);
    put_four(&mut device.toggles, next.toggles);
}

// The step on a record that is lent, by its image.
#[tactic(auto, using(crate::proofs::Images::image_back))]
pub fn step_lent(
    accepted: bool,
    device: &mut Device,
    set: &[u8],
    serial: &[u8],
    event: Event,
) -> Answer
    requires { accepted ≡ opens (lent set.now serial.now) }
    ensures { gives (answer_in result) device.new ≡ step (lent set.now serial.now) device.old event }
{
    let mut image = [0u8; 32];
    records::store(*device, &mut image[..]);
    let answer = reply(accepted, set, serial, &mut image, event);
    keep(device, &image);
    answer
}
