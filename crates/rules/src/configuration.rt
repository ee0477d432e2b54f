// Group 4, rule by rule: entry by entry, and in a body descriptor by descriptor.
ghost use Rattle.std.specs.Prelude.{◌≡◌, false, not, drop, leb};
ghost use Rattle.octets.specs.Sentences.{pick};
ghost use Rattle.descriptors.specs.Cut.{cut};
ghost use Rattle.descriptors.specs.Walk.{before, setting_at};
ghost use Rattle.descriptors.specs.Check.{beginning};
ghost use Rattle.sets.specs.Contents.{body_of};
ghost use Rattle.rules.specs.Findings.{asked, byte_at};
ghost use Rattle.rules.specs.Configuration.{progress_in, head_findings, head_numbers, placed_findings, interface_findings, surplus, number_findings, size_findings, interval_findings, address_findings, endpoint_findings, type_findings, descriptor_findings, end_findings, rest_findings, body_findings, body_companions, configuration_findings, configurations_findings};
ghost use Rattle.rules.specs.Configurations.{companion_findings, companions_from};
ghost use Rattle.rules.specs.After.{told_of, first_of};

use crate::body::Body;
use crate::progress::{Passage, Progress};
use crate::{Fault, Place};
use descriptors::limits::Limits;
use descriptors::types::{CONFIGURATION, ENDPOINT, INTERFACE, SUPERSPEED_ENDPOINT_COMPANION};
use descriptors::walk::{BEFORE_FIRST, Stand};
use descriptors::{Setting, limits, walk};
use octets::table::{holds, join};
use sets::Entry;
use sets::contents::{body_of, entry_at};

// ---- one descriptor
// The first, which begins at `start`, of a body of so many bytes.
fn head_fault(d: &[u8], size: usize, start: u16) -> Option<Fault>
    ensures { result ≡ first_of (head_findings size start d.now) }
{
    let head = Place { start, at: 0 };
    head.ask(404, 0, d.len() == octets::peek(d, 0) as usize)
        .or(head.ask(405, 1, octets::peek(d, 1) == CONFIGURATION))
        .or(head.ask(406, 0, 9 <= d.len()))
        .or(head.ask(407, 2, octets::word(d, 2) as usize == size))
}

fn head_numbers_fault(d: &[u8], start: u16) -> Option<Fault>
    ensures { result ≡ first_of (head_numbers start d.now) }
{
    let attributes = octets::peek(d, 7);
    let interfaces = octets::peek(d, 4);
    let head = Place { start, at: 0 };
    head.ask(408, 7, attributes / 128 == 1)
        .or(head.ask(409, 7, attributes % 32 == 0))
        .or(head.ask(410, 8, octets::peek(d, 8) <= 250))
        .or(head.ask(414, 4, 1 <= interfaces))
        .or(head.ask(415, 4, interfaces <= 16))
}

// Setting `t` after one that stands at `last`: a later one, or the first.
fn placed_fault(here: Place, last: Stand, t: Setting) -> Option<Fault>
    ensures { result ≡ first_of (placed_findings last.inside here.start here.at (setting_at last) t) }
{
    if last.inside {
        let same = t.interface == last.interface;
        let next = t.interface as u16 == last.interface as u16 + 1;
        let follows = (same & (t.alternate as u16 == last.alternate as u16 + 1))
            | (next & (t.alternate == 0));
        // bAlternateSetting, where the number may stand; else bInterfaceNumber.
        let wrong_byte = if same | next { 3 } else { 2 };
        return here.ask(418, wrong_byte, follows);
    }
    here.ask(416, 2, t.interface == 0)
        .or(here.ask(417, 3, t.alternate == 0))
}

// An interface descriptor.
fn interface_fault(d: &[u8], here: Place, progress: Progress, passage: Passage) -> Option<Fault>
    ensures { result ≡ first_of (interface_findings here.start here.at progress.head (progress_in progress) passage.last passage.stand d.now) }
{
    let head = Place {
        start: here.start,
        at: progress.head,
    };
    let begun = Setting {
        interface: passage.stand.interface,
        alternate: passage.stand.alternate,
    };
    head.ask(421, 4, progress.coming == 0)
        .or(here.ask(412, 0, 9 <= d.len()))
        .or(placed_fault(here, passage.last, begun))
        .or(here.ask(420, 3, begun.alternate <= 15))
}

// The address and the attributes of an endpoint descriptor.
fn numbers_fault(here: Place, address: u8, attributes: u8) -> Option<Fault>
    ensures { result ≡ first_of (number_findings here.start here.at address attributes) }
{
    let transfer = attributes % 4;
    here.ask(423, 2, address / 16 % 8 == 0)
        .or(here.ask(424, 2, 1 <= address % 16))
        .or(here.ask(425, 3, attributes <= 63))
        .or(here.ask(426, 3, 1 <= transfer))
        .or(here.ask(427, 3, (attributes <= 3) | (transfer == 1)))
}

fn size_fault(here: Place, transfer: u8, size: u16, limits: Limits) -> Option<Fault>
    ensures { result ≡ first_of (size_findings limits here.start here.at transfer size) }
{
    let ranges = limits.speed.ranges();
    let bulk = limits::is_doubled(ranges.bulk, size);
    let interrupt = limits::is_sized(ranges.bursts, ranges.interrupt, size);
    let isochronous = limits::is_sized(ranges.bursts, ranges.isochronous, size);
    here.ask(428, 4, !(transfer == 2) | bulk)
        .or(here.ask(429, 4, !(transfer == 3) | interrupt))
        .or(here.ask(430, 4, !(transfer == 1) | isochronous))
}

fn interval_fault(here: Place, transfer: u8, interval: u8, limits: Limits) -> Option<Fault>
    ensures { result ≡ first_of (interval_findings limits here.start here.at transfer interval) }
{
    let ranges = limits.speed.ranges();
    let polling = limits::is_within(ranges.polling, interval as u16);
    let period = limits::is_within(ranges.period, interval as u16);
    here.ask(431, 6, !(transfer == 3) | polling)
        .or(here.ask(432, 6, !(transfer == 1) | period))
}

// An endpoint's address among those that were seen.
fn address_fault(here: Place, progress: Progress, address: u8) -> Option<Fault>
    ensures { result ≡ first_of (address_findings here.start here.at (progress_in progress) address) }
{
    let e = descriptors::lookup::bit_of(address);
    let seen = octets::test_bit(progress.seen, e);
    let in_setting = octets::test_bit(progress.setting, e);
    let near = octets::test_bit(progress.interface, e);
    here.ask(433, 2, !seen | !in_setting)
        .or(here.ask(434, 2, !seen | near))
}

// One endpoint more: in a setting, or before the first interface.
fn surplus_fault(here: Place, inside: bool, progress: Progress) -> Option<Fault>
    ensures { result ≡ told_of (surplus inside here.start here.at progress.head (progress_in progress)) }
{
    let may_come = 1 <= progress.coming;
    if inside {
        let head = Place {
            start: here.start,
            at: progress.head,
        };
        return head.ask(421, 4, may_come);
    }
    here.ask(422, 0, may_come)
}

fn endpoint_fault(
    d: &[u8],
    here: Place,
    progress: Progress,
    last: Stand,
    limits: Limits,
) -> Option<Fault>
    ensures { result ≡ first_of (endpoint_findings limits here.start here.at progress.head (progress_in progress) last d.now) }
{
    let address = octets::peek(d, 2);
    let attributes = octets::peek(d, 3);
    let transfer = attributes % 4;
    let size = octets::word(d, 4);
    let interval = octets::peek(d, 6);
    here.ask(413, 0, 7 <= d.len())
        .or(surplus_fault(here, last.inside, progress))
        .or(numbers_fault(here, address, attributes))
        .or(size_fault(here, transfer, size, limits))
        .or(interval_fault(here, transfer, interval, limits))
        .or(address_fault(here, progress, address))
}

// A descriptor by its type.
fn type_fault(
    d: &[u8],
    here: Place,
    progress: Progress,
    passage: Passage,
    limits: Limits,
) -> Option<Fault>
    ensures { result ≡ first_of (type_findings limits here.start here.at progress.head (progress_in progress) passage.last passage.stand d.now) }
{
    match octets::peek(d, 1) {
        INTERFACE => interface_fault(d, here, progress, passage),
        ENDPOINT => endpoint_fault(d, here, progress, passage.last, limits),
        _ => None,
    }
}

// Any descriptor after the first.
fn descriptor_fault(
    d: &[u8],
    here: Place,
    progress: Progress,
    passage: Passage,
    limits: Limits,
) -> Option<Fault>
    ensures { result ≡ first_of (descriptor_findings limits here.start here.at progress.head (progress_in progress) passage.last passage.stand d.now) }
{
    here.ask(404, 0, d.len() == octets::peek(d, 0) as usize)
        .or(here.ask(411, 1, !limits::is_refused(octets::peek(d, 1))))
        .or(type_fault(d, here, progress, passage, limits))
}

// ---- a body
// Where no step leads on: a bLength below 2, or past the body's end.
fn stuck_fault(size: u8, here: Place) -> Option<Fault>
    ensures { result ≡ told_of (asked (pick (leb 2 size) 404 403) (byte_at here.start here.at 0) false) }
{
    let rule = if 2 <= size { 404 } else { 403 };
    here.ask(rule, 0, false)
}

fn end_fault(start: u16, interfaces: u8, progress: Progress, last: Stand) -> Option<Fault>
    ensures { result ≡ first_of (end_findings start interfaces progress.head (progress_in progress) last) }
{
    let interface = Place {
        start,
        at: progress.head,
    };
    let head = Place { start, at: 0 };
    let all = last.inside & (last.interface as u16 + 1 == interfaces as u16);
    interface
        .ask(421, 4, progress.coming == 0)
        .or(head.ask(419, 4, all))
}

// The descriptors from `from` on, for so many interfaces.
#[tactic(auto, using(crate::proofs::Steps::walk_inside), unfolding(crate::specs::After::after))]
fn rest_fault(body: &Body, from: usize, interfaces: u8, limits: Limits) -> Option<Fault>
    ensures { result ≡ first_of (rest_findings limits body.now.start interfaces from 0 beginning before (cut (drop from body.now.bytes.now))) }
{
    let bytes = body.bytes;
    let mut found = None;
    let mut progress = Progress::default();
    let mut last = BEFORE_FIRST;
    let mut at = from;
    while at < bytes.len() {
        let here = Place {
            start: body.start,
            at: at as u16,
        };
        let Some(step) = walk::advance(bytes, at, last) else {
            return found.or(stuck_fault(octets::peek(bytes, at), here));
        };
        let end = step.end;
        let d = &bytes[at..end];
        let passage = Passage {
            last: walk::stand_in(last),
            stand: step.stand,
        };
        found = found.or(descriptor_fault(d, here, progress, passage, limits));
        progress = progress.move_on(d, here.at, passage);
        last = step.setting;
        at = end;
    }
    found.or(end_fault(body.start, interfaces, progress, walk::stand_in(last)))
}

fn body_fault(body: &Body, limits: Limits) -> Option<Fault>
    ensures { result ≡ first_of (body_findings limits body.now.start body.now.bytes.now) }
{
    let bytes = body.bytes;
    let start = Place {
        start: body.start,
        at: 0,
    };
    if bytes.is_empty() {
        return start.ask(405, 0, false);
    }
    let Some(step) = walk::advance(bytes, 0, BEFORE_FIRST) else {
        return stuck_fault(octets::peek(bytes, 0), start);
    };
    let end = step.end;
    let head = &bytes[..end];
    head_fault(head, bytes.len(), body.start)
        .or(head_numbers_fault(head, body.start))
        .or(rest_fault(body, end, octets::peek(head, 4), limits))
}

// ---- companions
// A descriptor after one that begins at `last`; `due`: that is an endpoint.
fn companion_fault(d: &[u8], here: Place, last: u16, due: bool) -> Option<Fault>
    ensures { result ≡ first_of (companion_findings here.start here.at last due d.now) }
{
    let companion = octets::peek(d, 1) == SUPERSPEED_ENDPOINT_COMPANION;
    let before = Place {
        start: here.start,
        at: last,
    };
    before
        .ask(438, 0, !due | companion)
        .or(here.ask(439, 1, !companion | due))
        .or(here.ask(437, 0, !companion | (6 <= d.len())))
}

// A walk of its own over all descriptors of a body.
#[tactic(auto, using(crate::proofs::Steps::walk_inside), unfolding(crate::specs::After::after))]
fn companions_fault(body: &Body) -> Option<Fault>
    ensures { result ≡ first_of (companions_from body.now.start 0 0 false (cut body.now.bytes.now)) }
{
    let bytes = body.bytes;
    let mut found = None;
    let mut last = BEFORE_FIRST;
    let mut behind: u16 = 0;
    let mut due = false;
    let mut at = 0;
    while at < bytes.len() {
        let here = Place {
            start: body.start,
            at: at as u16,
        };
        let Some(step) = walk::advance(bytes, at, last) else {
            return found;
        };
        let end = step.end;
        let d = &bytes[at..end];
        found = found.or(companion_fault(d, here, behind, due));
        due = octets::peek(d, 1) == ENDPOINT;
        behind = here.at;
        last = step.setting;
        at = end;
    }
    let before = Place {
        start: body.start,
        at: behind,
    };
    found.or(before.ask(438, 0, !due))
}

// The companions of a body, of a kind that has them.
fn accompanied_fault(body: &Body, limits: Limits) -> Option<Fault>
    ensures { result ≡ first_of (body_companions limits body.now.start body.now.bytes.now) }
{
    if limits.companions {
        return companions_fault(body);
    }
    None
}

// ---- the entries
// A configuration's entry at `at`, and its body: which index it has to have, and whether its value was there before.
fn configuration_fault(
    set: &[u8],
    e: Entry,
    at: u16,
    index: u8,
    again: bool,
    limits: Limits,
) -> Option<Fault>
    ensures { result ≡ first_of (configuration_findings limits at index (not again) e (body_of set.now e)) }
{
    let body = Body::of(set, e);
    let entry = Place { start: 0, at };
    let head = Place {
        start: body.start,
        at: 0,
    };
    entry
        .ask(401, 1, e.index == index)
        .or(entry.ask(402, 2, e.language == 0))
        .or(body_fault(&body, limits))
        .or(accompanied_fault(&body, limits))
        .or(head.ask(435, 5, 1 <= octets::peek(body.bytes, 5)))
        .or(head.ask(436, 5, !again))
}

// Group 4: a pass over the entries, with the index that is next and the values that were there.
pub fn configurations_fault(set: &[u8], limits: Limits) -> Option<Fault>
    ensures { result ≡ first_of (configurations_findings limits set.now) }
{
    let mut found = None;
    let mut index: u8 = 0;
    let mut seen = [0u32; 8];
    for i in 0..octets::peek(set, 2) {
        let e = entry_at(set, i);
        if e.kind == CONFIGURATION {
            let at = 4 + 8 * (i as u16);
            let value = octets::peek(body_of(set, e), 5);
            let again = holds(&seen, value);
            found = found.or(configuration_fault(set, e, at, index, again, limits));
            join(&mut seen, value);
            // Kept: the configurations are counted, and not the turns of the loop.
            index += 1;
        }
    }
    found
}
