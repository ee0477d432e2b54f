// Types 6 and 7 of a set, rule by rule, beside the other set of the pair.
ghost use Rattle.std.specs.Prelude.{◌≡◌, not, nat_eq, zip, position, length, drop};
ghost use Rattle.octets.specs.Sentences.{first};
ghost use Rattle.sets.specs.Contents.{entries, entries_of};
ghost use Rattle.sets.specs.Pair.{qualifier_of, retyped};
ghost use Rattle.rules.specs.Explained.{is_broken};
ghost use Rattle.rules.specs.After.{first_of, fault_in};
ghost use Rattle.pair_rules.specs.Pair.{agreeing, qualifier_findings, qualifier_entry_findings, mirror_findings, beside_findings, mirrors_from, pair_findings};

use descriptors::types::{CONFIGURATION, DEVICE_QUALIFIER, OTHER_SPEED_CONFIGURATION};
use rules::device::behind_strings;
use rules::{Fault, Place};
use sets::Entry;
use sets::contents::{body_of, count_of, entry_at, entry_of};

// The first place where two slices differ that have one.
fn first_difference(a: &[u8], b: &[u8]) -> Option<usize>
    ensures { result ≡ position (λ p. not (nat_eq p.0 p.1)) (zip a.now b.now) }
{
    a.iter().zip(b).position(|(x, y)| *x != *y)
}

// How many leading bytes of two slices agree.
fn agreeing(a: &[u8], b: &[u8]) -> usize
    ensures { result ≡ agreeing a.now b.now }
{
    first_difference(a, b).unwrap_or(a.len().min(b.len()))
}

// ---- type 6
// How many leading bytes of a body are those of a device descriptor's qualifier.
// Kept: pairs::agreement has the same ten bytes, but as part of a test on the board, where a function more would cost flash; this crate is for a bench computer.
fn agreeing_qualifier(body: &[u8], device: &[u8]) -> usize
    ensures { result ≡ agreeing body.now (qualifier_of device.now) }
{
    let qualifier = [
        10u8,
        DEVICE_QUALIFIER,
        octets::peek(device, 2),
        octets::peek(device, 3),
        octets::peek(device, 4),
        octets::peek(device, 5),
        octets::peek(device, 6),
        octets::peek(device, 7),
        octets::peek(device, 17),
        0,
    ];
    agreeing(body, &qualifier)
}

// The qualifier's entry, which stands at `at`, and its body; `device` is the other set's device descriptor.
fn qualifier_fault(set: &[u8], e: Entry, at: u16, device: &[u8]) -> Option<Fault>
    ensures { result ≡ first_of (qualifier_findings set.now device.now at e) }
{
    let body = body_of(set, e);
    let size = body.len();
    let same = agreeing_qualifier(body, device);
    let entry = Place { start: 0, at };
    let differs = Place {
        start: e.offset,
        at: same as u16,
    };
    entry
        .ask(2402, 1, e.index == 0)
        .or(entry.ask(2403, 2, e.language == 0))
        .or(entry.ask(2404, 6, size == 10))
        .or(differs.ask(2405, 0, (same == size) & (size == 10)))
}

fn qualifiers_fault(set: &[u8], device: &[u8]) -> Option<Fault>
    ensures { result ≡ first_of (qualifier_entry_findings set.now device.now (entries_of 6 set.now)) }
{
    let at = behind_strings(set);
    let entry = Place { start: 0, at };
    match entry_of(set, DEVICE_QUALIFIER, 0) {
        Some(e) => entry
            .ask(2401, 8, count_of(set, DEVICE_QUALIFIER) <= 1)
            .or(qualifier_fault(set, e, at, device)),
        None => entry.ask(2401, 0, false),
    }
}

// ---- type 7
// How long a body is with another type byte.
fn retyped_length(body: &[u8]) -> usize
    ensures { result ≡ length (retyped body.now) }
{
    body.len().max(2)
}

// How many leading bytes of a body are those of another but for its type byte, which is 7.
fn agreeing_retyped(mine: &[u8], theirs: &[u8]) -> usize
    ensures { result ≡ agreeing mine.now (retyped theirs.now) }
{
    let start = [octets::peek(theirs, 0), OTHER_SPEED_CONFIGURATION];
    let same = agreeing(mine, &start);
    if same < 2 {
        return same;
    }
    2 + agreeing(buffers::tail(mine, 2), buffers::tail(theirs, 2))
}

// A type 7 entry at `at` beside a configuration of the other set, whose entry is `f`.
fn mirror_fault(set: &[u8], e: Entry, at: u16, f: Entry, theirs: &[u8]) -> Option<Fault>
    ensures { result ≡ first_of (mirror_findings set.now at e f theirs.now) }
{
    let body = body_of(set, e);
    let size = body.len();
    let same = agreeing_retyped(body, theirs);
    let long = size == retyped_length(theirs);
    let entry = Place { start: 0, at };
    let differs = Place {
        start: e.offset,
        at: same as u16,
    };
    entry
        .ask(2407, 1, e.index == f.index)
        .or(entry.ask(2408, 2, e.language == 0))
        .or(entry.ask(2409, 6, long))
        .or(differs.ask(2410, 0, (same == size) & long))
}

// The same beside the k-th configuration, or one entry too many.
fn beside_fault(set: &[u8], other: &[u8], at: u16, e: Entry, k: u8) -> Option<Fault>
    ensures { result ≡ first_of (beside_findings set.now other.now at e (drop k (entries_of 2 other.now))) }
{
    match entry_of(other, CONFIGURATION, k) {
        Some(f) => mirror_fault(set, e, at, f, body_of(other, f)),
        None => Place { start: 0, at }.ask(2406, 0, false),
    }
}

// A pass over the entries; `k` counts those of type 7.
fn mirrors_fault(set: &[u8], other: &[u8]) -> Option<Fault>
    ensures { result ≡ first_of (mirrors_from set.now other.now 4 (entries_of 2 other.now) (entries set.now)) }
{
    let count = octets::peek(set, 2);
    let mut found = None;
    let mut k: u8 = 0;
    for i in 0..count {
        let e = entry_at(set, i);
        if e.kind == OTHER_SPEED_CONFIGURATION {
            found = found.or(beside_fault(set, other, 4 + 8 * (i as u16), e, k));
            // Kept: the entries of type 7 are counted, and not the turns of the loop.
            k += 1;
        }
    }
    let end = Place {
        start: 0,
        at: 4 + 8 * (count as u16),
    };
    found.or(end.ask(2406, 0, count_of(other, CONFIGURATION) <= k))
}

// Both: the first rule that a set breaks beside the other.
pub fn pair_fault(set: &[u8], other: &[u8]) -> Option<Fault>
    ensures { result ≡ fault_in (first is_broken (pair_findings set.now other.now)) }
{
    qualifiers_fault(set, sets::device::device_body(other)).or(mirrors_fault(set, other))
}
