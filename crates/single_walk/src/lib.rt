// A second way to answer an event, for large sets: while opening's one walk checks a configuration it collects what the event asks of the selected one, so that no body is walked
// through twice.
#![tactic(auto)]

pub mod collect;
mod course;
pub mod names;
pub mod pass;
pub mod walk;

ghost use Rattle.std.specs.Prelude.{◌≡◌, List, [], false, true, ℕ, eqb, IfOk, IfErr};
ghost use Rattle.octets.specs.Sentences.{pick};
ghost use Rattle.descriptors.specs.declared.limits.Limits.{Limits};
ghost use Rattle.sets.specs.Broken.{number_of, opened_number};
ghost use Rattle.sets.specs.Checks.{Ordered, Reads, Begins, Starts, Ready};
ghost use Rattle.sets.specs.Contents.{entries_of};
ghost use Rattle.sets.specs.Pieces.{pieces_in};
ghost use Rattle.sets.specs.Strings.{languages};
ghost use Rattle.sets.specs.Opening.{lent, good_configurations, opening};
ghost use Rattle.sets.specs.Pair.{opening_two};
ghost use Rattle.sets.specs.View.{accepted};
ghost use Rattle.events.specs.Coded.{answer_in};
ghost use Rattle.steps.specs.Gathering.{view_in, event_in};
ghost use Rattle.single_walk.specs.Passes.{AtSpeed, Tells};

use crate::names::Names;
use descriptors::check::Verdict;
use descriptors::limits;
use descriptors::limits::Limits;
use descriptors::survey::Asked;
use events::{Answer, Event};
use records::Device;
use sets::opening::{Begun, Broken};
use steps::facts;
use steps::facts::Selected;

// The parts of opening around the configurations, each a function of its own, as in sets::opening::opening, so that what they are lent shares its place on the stack.
fn begin(set: &[u8], limits: Limits) -> Result<Begun, Broken>
    ensures ok { IfOk result (λ begun. Starts limits set.now begun) }
    ensures err { IfErr result (λ broken. (serial : List ℕ) → number_of broken ≡ opening limits (lent set.now serial)) }
{
    sets::opening::first_groups(set, limits)
}

fn read_strings(set: &[u8], bare: bool, names: &mut [u32; 8]) -> bool
    requires { Ordered set.now × (bare ≡ true → entries_of 3 set.now ≡ []) }
    ensures { Reads set.now (languages set.now) result names.new }
{
    if bare {
        sets::string::name_none(names);
        return true;
    }
    sets::string::read(set, sets::string::string_zero(set), names)
}

fn finish(
    set: &[u8],
    serial: &[u8],
    configurations: Verdict,
    strings: bool,
    names: &[u32; 8],
    device: u16,
) -> Result<(), Broken>
    requires { Ready set.now names.now strings configurations device }
    ensures { (limits : Limits) → Begins limits set.now → configurations.good ≡ good_configurations limits (pieces_in set.now)
        → opened_number result ≡ opening limits (lent set.now serial.now) }
{
    sets::opening::last_groups(set, serial, configurations, strings, names, device)
}

// Opening by these limits, those of full or of high speed, with what is known of the configuration that the record selects.
fn open_set(
    set: &[u8],
    serial: &[u8],
    limits: Limits,
    device: &Device,
    asked: Asked,
) -> Result<Selected, Broken>
    requires { AtSpeed limits }
    ensures { Tells (opening limits (lent set.now serial.now)) set.now device.now.configuration device.now.alternates asked result }
{
    let begun = begin(set, limits)?;
    let mut names = [0u32; 8];
    let strings = read_strings(set, begun.bare, &mut names);
    let named = Names { table: &names };
    let Some(passed) = pass::configurations(set, limits, named, device, asked) else {
        return Err(Broken::Configuration);
    };
    let known = passed.known;
    let configurations = Verdict {
        good: true,
        refers: passed.refers,
    };
    finish(set, serial, configurations, strings, &names, begun.device)?;
    Ok(known)
}

// What was collected; nothing where what is lent does not open.
fn known_in(opened: Result<Selected, Broken>) -> Selected
    ensures { IfOk opened (λ known. result ≡ known) }
{
    match opened {
        Ok(known) => known,
        Err(_) => facts::nothing_known(),
    }
}

// An event on a board that lends one set, on an image of any length: it is answered, and the image renewed.
pub fn react(set: &[u8], serial: &[u8], image: &mut [u8], event: Event) -> Answer
    ensures answer { answer_in result ≡ (event_in (accepted (lent set.now serial.now)) (view_in false set.now serial.now) image.old event).answer }
    ensures image { image.new ≡ (event_in (accepted (lent set.now serial.now)) (view_in false set.now serial.now) image.old event).image }
{
    let device = records::read(image);
    let asked = facts::asked_of(event);
    let opened = open_set(set, serial, limits::full_speed(), &device, asked);
    let accepted = opened.is_ok();
    let known = known_in(opened);
    let sought = facts::seek(accepted, set, serial, event);
    steps::react(accepted, false, image, event, known, sought)
}

// Opening two sets, with what is known of the set that this speed chooses.
fn open_two(
    full: &[u8],
    high: &[u8],
    serial: &[u8],
    speed: u8,
    device: &Device,
    asked: Asked,
) -> Result<Selected, Broken>
    ensures { Tells (opening_two full.now high.now serial.now) (pick (eqb speed 0) full.now high.now) device.now.configuration device.now.alternates asked result }
{
    let slow = open_set(full, serial, limits::paired_full(), device, asked)?;
    let fast = open_set(high, serial, limits::high_speed(), device, asked)?;
    pairs::compare(full, high)?;
    if speed == records::SPEED_FULL {
        return Ok(slow);
    }
    Ok(fast)
}

// The same on a board that lends two, of which this speed chooses the one in use.
pub fn react_two<'a>(
    full: &'a [u8],
    high: &'a [u8],
    serial: &[u8],
    speed: u8,
    image: &mut [u8],
    event: Event,
) -> Answer
    ensures answer { answer_in result ≡ (event_in (eqb (opening_two full.now high.now serial.now) 0) (view_in true (pick (eqb speed 0) full.now high.now) serial.now) image.old event).answer }
    ensures image { image.new ≡ (event_in (eqb (opening_two full.now high.now serial.now) 0) (view_in true (pick (eqb speed 0) full.now high.now) serial.now) image.old event).image }
{
    let device = records::read(image);
    let asked = facts::asked_of(event);
    let opened = open_two(full, high, serial, speed, &device, asked);
    let accepted = opened.is_ok();
    let known = known_in(opened);
    let set = steps::in_use(full, high, speed);
    let sought = facts::seek(accepted, set, serial, event);
    steps::react(accepted, true, image, event, known, sought)
}
