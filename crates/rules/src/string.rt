// Group 5, rule by rule: the strings entry by entry, whether string 0 is there, then the languages of the others and the references.
ghost use Rattle.std.specs.Prelude.{◌≡◌, ◌+◌, ◌*◌, [], ◌&&◌, ◌||◌, not, eqb, length, drop};
ghost use Rattle.octets.specs.Sentences.{pick, ◌⇒◌, member};
ghost use Rattle.descriptors.specs.Descriptor.{is_interface, iInterface};
ghost use Rattle.sets.specs.Contents.{body_of, entries, entries_of};
ghost use Rattle.sets.specs.Strings.{words, languages};
ghost use Rattle.rules.specs.Findings.{asked, byte_at};
ghost use Rattle.rules.specs.Strings.{languages_from, language_findings, string_findings, string_entry_findings, strings_from, listed_from, body_references, references_from, reference_findings, device_references, strings_findings};
ghost use Rattle.rules.specs.After.{told_of, first_of};

use crate::body::Body;
use crate::judge::Judge;
use crate::{Fault, Place};
use descriptors::types::{CONFIGURATION, INTERFACE, STRING};
use descriptors::walk;
use descriptors::walk::BEFORE_FIRST;
use sets::Entry;
use sets::contents::{body_of, count_of, entry_at, find_entry};
use sets::device::device_body;

// ---- the strings
// The languages that string 0 lists, one after another; it begins at `start`.
fn languages_fault(zero: &Body, start: u16) -> Option<Fault>
    ensures { result ≡ first_of (languages_from start 2 0 (words (drop 2 zero.now.bytes.now))) }
{
    let mut found = None;
    let mut last: u16 = 0;
    for i in 1..zero.bytes.len() / 2 {
        let at = 2 * i;
        let here = Place {
            start,
            at: at as u16,
        };
        let language = octets::word(zero.bytes, at);
        found = found
            .or(here.ask(507, 0, 1 <= language))
            .or(here.ask(508, 0, last < language));
        last = language;
    }
    found
}

// String 0's languages, if this is string 0.
fn zero_fault(first: bool, zero: &Body, start: u16) -> Option<Fault>
    ensures { result ≡ first_of (pick first (language_findings start (words (drop 2 zero.now.bytes.now))) []) }
{
    if !first {
        return None;
    }
    let size = zero.bytes.len();
    let here = Place { start, at: 0 };
    here.ask(505, 0, 4 <= size)
        .or(here.ask(506, 10, size <= 11))
        .or(languages_fault(zero, start))
}

// A string's body, which begins at `start`.
fn body_fault(body: &[u8], start: u16) -> Option<Fault>
    ensures { result ≡ first_of (string_findings start body.now) }
{
    let size = body.len();
    let here = Place { start, at: 0 };
    here.ask(501, 0, octets::peek(body, 0) as usize == size)
        .or(here.ask(502, 1, octets::peek(body, 1) == STRING))
        .or(here.ask(503, 0, (size % 2 == 0) & (size <= 254)))
}

// A string's entry at `at`, and its body; `zero` is string 0.
fn entry_fault(set: &[u8], e: Entry, at: u16, zero: &Body, serial: u8) -> Option<Fault>
    ensures { result ≡ first_of (string_entry_findings (words (drop 2 zero.now.bytes.now)) serial at e (body_of set.now e)) }
{
    let entry = Place { start: 0, at };
    let index_zero = e.index == 0;
    let language_zero = e.language == 0;
    let goes = (!language_zero | index_zero) & (!index_zero | language_zero);
    body_fault(body_of(set, e), e.offset)
        .or(entry.ask(504, 2, goes))
        .or(zero_fault(index_zero & language_zero, zero, e.offset))
        .or(entry.ask(511, 1, !(1 <= serial) | !(e.index == serial)))
}

// The string entries; `zero` is string 0.
fn entries_fault(set: &[u8], zero: &Body, serial: u8) -> Option<Fault>
    ensures { result ≡ first_of (strings_from set.now (words (drop 2 zero.now.bytes.now)) serial 4 (entries set.now)) }
{
    let mut found = None;
    for i in 0..octets::peek(set, 2) {
        let e = entry_at(set, i);
        if e.kind == STRING {
            found = found.or(entry_fault(set, e, 4 + 8 * (i as u16), zero, serial));
        }
    }
    found
}

// Whether an entry at `at` uses a language that string 0 lists.
fn language_fault(e: Entry, at: u16, zero: &[u8]) -> Option<Fault>
    ensures { result ≡ told_of (asked 509 (byte_at 0 at 2) ((eqb e.index 0 && eqb e.language 0) || member e.language (words (drop 2 zero.now)))) }
{
    let entry = Place { start: 0, at };
    let first = (e.index == 0) & (e.language == 0);
    entry.ask(509, 2, first | sets::string::lists(zero, e.language))
}

// The languages of the string entries; `zero` is string 0.
fn listed_fault(set: &[u8], zero: &[u8]) -> Option<Fault>
    ensures { result ≡ first_of (listed_from set.now (words (drop 2 zero.now)) 4 (entries set.now)) }
{
    let mut found = None;
    for i in 0..octets::peek(set, 2) {
        let e = entry_at(set, i);
        if e.kind == STRING {
            found = found.or(language_fault(e, 4 + 8 * (i as u16), zero));
        }
    }
    found
}

// ---- the references
// The reference of a descriptor, if it is an interface's.
fn interface_fault(d: &[u8], here: Place, judge: &Judge) -> Option<Fault>
    ensures { result ≡ first_of (pick (is_interface d.now) (reference_findings judge.now.set.now here.start here.at 8 (iInterface d.now)) []) }
{
    if octets::peek(d, 1) == INTERFACE {
        return judge.ask(here, 8, octets::peek(d, 8));
    }
    None
}

// The references of a configuration: its own, and those of its interface descriptors.
#[tactic(auto, using(crate::proofs::Steps::walk_inside), unfolding(crate::specs::After::after))]
fn configuration_fault(e: Entry, judge: &Judge) -> Option<Fault>
    ensures { result ≡ first_of (body_references judge.now.set.now e.offset (body_of judge.now.set.now e)) }
{
    let body = Body::of(judge.set, e);
    let bytes = body.bytes;
    let start = Place {
        start: body.start,
        at: 0,
    };
    let mut found = judge.ask(start, 6, octets::peek(bytes, 6));
    let mut last = BEFORE_FIRST;
    let mut at = 0;
    while at < bytes.len() {
        let here = Place {
            start: body.start,
            at: at as u16,
        };
        let Some(step) = walk::advance(bytes, at, last) else {
            return found;
        };
        let end = step.end;
        found = found.or(interface_fault(&bytes[at..end], here, judge));
        last = step.setting;
        at = end;
    }
    found
}

fn references_fault(judge: &Judge) -> Option<Fault>
    ensures { result ≡ first_of (references_from judge.now.set.now (entries judge.now.set.now)) }
{
    let set = judge.set;
    let mut found = None;
    for i in 0..octets::peek(set, 2) {
        let e = entry_at(set, i);
        if e.kind == CONFIGURATION {
            found = found.or(configuration_fault(e, judge));
        }
    }
    found
}

// The references of the device, which is the first body.
fn device_fault(judge: &Judge) -> Option<Fault>
    ensures { result ≡ first_of (device_references judge.now.set.now) }
{
    let device = device_body(judge.set);
    let start = Place {
        start: 4 + 8 * (octets::peek(judge.set, 2) as u16),
        at: 0,
    };
    judge
        .ask(start, 14, octets::peek(device, 14))
        .or(judge.ask(start, 15, octets::peek(device, 15)))
        .or(judge.ask(start, 16, octets::peek(device, 16)))
}

// ---- the group
// Where string 0 has to stand: first of all strings, behind the entries of the device and of the configurations.
fn missing_fault(set: &[u8], there: bool) -> Option<Fault>
    ensures { result ≡ told_of (asked 510 (byte_at 0 (12 + 8 * length (entries_of 2 set.now)) 0) (not (eqb (length (entries_of 3 set.now)) 0) ⇒ there)) }
{
    let strings = Place {
        start: 0,
        at: 12 + 8 * (count_of(set, CONFIGURATION) as u16),
    };
    strings.ask(510, 0, (count_of(set, STRING) == 0) | there)
}

// String 0, which lists the languages; empty where there is none.
fn string_zero(set: &[u8]) -> Body
    ensures { words (drop 2 result.bytes.now) ≡ languages set.now }
{
    match find_entry(set, STRING, 0, 0) {
        Some(e) => Body::of(set, e),
        None => Body {
            bytes: &set[0..0],
            start: 0,
        },
    }
}

// Group 5.
pub fn strings_fault(set: &[u8]) -> Option<Fault>
    ensures { result ≡ first_of (strings_findings set.now) }
{
    let there = find_entry(set, STRING, 0, 0).is_some();
    let zero = string_zero(set);
    let judge = Judge::of(set, zero.bytes, there);
    entries_fault(set, &zero, judge.serial)
        .or(missing_fault(set, there))
        .or(listed_fault(set, zero.bytes))
        .or(device_fault(&judge))
        .or(references_fault(&judge))
}
