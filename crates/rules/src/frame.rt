// Groups 1 and 2, rule by rule.
ghost use Rattle.std.specs.Prelude.{◌≡◌};
ghost use Rattle.rules.specs.Frame.{frame_findings, entry_findings, contents_findings};
ghost use Rattle.rules.specs.After.{first_of, is_first, last_of};

use crate::{Fault, Place};
use descriptors::limits::{Limits, is_named};
use sets::Entry;
use sets::contents::{MOST_BYTES, MOST_ENTRIES, entry_at, precedes};

// Group 1.
pub fn frame_fault(set: &[u8]) -> Option<Fault>
    ensures { result ≡ first_of (frame_findings set.now) }
{
    let size = set.len();
    let total = octets::word(set, 0) as usize;
    let count = octets::peek(set, 2) as usize;
    let start = Place { start: 0, at: 0 };
    let end = Place {
        start: MOST_BYTES as u16,
        at: 0,
    };
    start
        .ask(101, 3, 4 <= size)
        .or(end.ask(102, 0, size <= MOST_BYTES))
        .or(start.ask(103, 0, total == size))
        .or(start.ask(104, 2, 1 <= count))
        .or(start.ask(105, 2, count <= MOST_ENTRIES))
        .or(start.ask(106, 3, octets::peek(set, 3) == 0))
        .or(start.ask(107, 2, 4 + 8 * count <= total))
}

// An entry at `at`, by itself and after the last one, if it is not the first; the bodies so far end at `end`.
fn entry_fault(limits: Limits, at: u16, last: Option<Entry>, end: usize, e: Entry) -> Option<Fault>
    ensures { result ≡ first_of (entry_findings limits at (is_first last) (last_of last) end e) }
{
    let entry = Place { start: 0, at };
    let ascends = match last {
        Some(last) => precedes(last, e),
        None => true,
    };
    entry
        .ask(201, 0, is_named(limits.entries, e.kind))
        .or(entry.ask(202, 0, ascends))
        .or(entry.ask(203, 6, 2 <= e.length))
        .or(entry.ask(204, 4, e.offset as usize == end))
}

// Group 2: a pass over the entries, with the last one and where the next body has to begin.
pub fn contents_fault(set: &[u8], limits: Limits) -> Option<Fault>
    ensures { result ≡ first_of (contents_findings limits set.now) }
{
    let count = octets::peek(set, 2);
    let mut found = None;
    let mut start = 4 + 8 * (count as usize);
    let mut last = None;
    for i in 0..count {
        let e = entry_at(set, i);
        found = found.or(entry_fault(limits, 4 + 8 * (i as u16), last, start, e));
        start += e.length as usize;
        last = Some(e);
    }
    let lengths = Place {
        start: 0,
        at: 2 + 8 * (count as u16),
    };
    found.or(lengths.ask(205, 0, start == octets::word(set, 0) as usize))
}
