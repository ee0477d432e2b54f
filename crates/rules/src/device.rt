// Groups 3 and 6, rule by rule.
ghost use Rattle.std.specs.Prelude.{◌≡◌};
ghost use Rattle.sets.specs.Contents.{entries_of};
ghost use Rattle.rules.specs.Device.{device_head, device_counts, one_findings, device_entry_findings, behind_strings, store_findings, store_entry_findings, device_findings, serial_findings};
ghost use Rattle.rules.specs.After.{first_of};

use crate::{Fault, Place};
use descriptors::limits::{Limits, is_doubled, is_named};
use descriptors::types::{BOS, CONFIGURATION, DEVICE, STRING};
use sets::Entry;
use sets::contents::{body_of, count_of, entry_of};

// The device descriptor, which begins at `start`.
fn head_fault(d: &[u8], start: u16, limits: Limits) -> Option<Fault>
    ensures { result ≡ first_of (device_head limits start d.now) }
{
    let size = is_doubled(limits.control, octets::peek(d, 7) as u16);
    let device = Place { start, at: 0 };
    device
        .ask(305, 0, octets::peek(d, 0) == 18)
        .or(device.ask(306, 1, octets::peek(d, 1) == DEVICE))
        .or(device.ask(307, 7, size))
}

// Its class, and its configurations beside the number of type 2 entries.
fn counts_fault(d: &[u8], start: u16, configurations: u8) -> Option<Fault>
    ensures { result ≡ first_of (device_counts configurations start d.now) }
{
    let count = octets::peek(d, 17);
    let class = !(octets::peek(d, 4) == 0) | (octets::peek(d, 5) == 0);
    let device = Place { start, at: 0 };
    device
        .ask(308, 5, class)
        .or(device.ask(309, 17, 1 <= count))
        .or(device.ask(310, 17, count <= 8))
        .or(device.ask(311, 17, count == configurations))
}

// The device's entry, and its body.
fn one_fault(set: &[u8], e: Entry, limits: Limits) -> Option<Fault>
    ensures { result ≡ first_of (one_findings limits set.now e) }
{
    let body = body_of(set, e);
    let start = Place { start: 0, at: 0 };
    start
        .ask(302, 5, e.index == 0)
        .or(start.ask(303, 6, e.language == 0))
        .or(start.ask(304, 10, body.len() == 18))
        .or(head_fault(body, e.offset, limits))
        .or(counts_fault(body, e.offset, count_of(set, CONFIGURATION)))
}

// The device's entry.
fn entry_fault(set: &[u8], limits: Limits) -> Option<Fault>
    ensures { result ≡ first_of (device_entry_findings limits set.now (entries_of 1 set.now)) }
{
    let start = Place { start: 0, at: 0 };
    match entry_of(set, DEVICE, 0) {
        Some(e) => start
            .ask(301, 12, count_of(set, DEVICE) <= 1)
            .or(one_fault(set, e, limits)),
        None => start.ask(301, 4, false),
    }
}

// The BOS's entry, which stands at `at`, and its body.
fn store_fault(set: &[u8], e: Entry, at: u16) -> Option<Fault>
    ensures { result ≡ first_of (store_findings set.now at e) }
{
    let body = body_of(set, e);
    let size = body.len();
    let entry = Place { start: 0, at };
    let store = Place {
        start: e.offset,
        at: 0,
    };
    entry
        .ask(313, 1, e.index == 0)
        .or(entry.ask(314, 2, e.language == 0))
        .or(entry.ask(315, 6, 5 <= size))
        .or(store.ask(316, 2, octets::word(body, 2) as usize == size))
}

// Where the first entry of a type above 3 stands.
pub fn behind_strings(set: &[u8]) -> u16
    ensures { result ≡ behind_strings set.now }
{
    let devices = count_of(set, DEVICE) as u16;
    let configurations = count_of(set, CONFIGURATION) as u16;
    let strings = count_of(set, STRING) as u16;
    4 + 8 * (devices + configurations + strings)
}

// The BOS.
fn stores_fault(set: &[u8]) -> Option<Fault>
    ensures { result ≡ first_of (store_entry_findings set.now (entries_of 15 set.now)) }
{
    match entry_of(set, BOS, 0) {
        Some(e) => {
            let at = behind_strings(set);
            let entry = Place { start: 0, at };
            entry
                .ask(312, 8, count_of(set, BOS) <= 1)
                .or(store_fault(set, e, at))
        }
        None => {
            let end = Place {
                start: 0,
                at: 4 + 8 * (octets::peek(set, 2) as u16),
            };
            end.ask(312, 0, false)
        }
    }
}

// Group 3: the device, and the BOS of a kind that has one.
pub fn device_fault(set: &[u8], limits: Limits) -> Option<Fault>
    ensures { result ≡ first_of (device_findings limits set.now) }
{
    let found = entry_fault(set, limits);
    if is_named(limits.entries, BOS) {
        return found.or(stores_fault(set));
    }
    found
}

// Group 6.
pub fn serial_fault(index: u8, block: &[u8]) -> Option<Fault>
    ensures { result ≡ first_of (serial_findings index block.now) }
{
    let size = block.len();
    let start = Place { start: 0, at: 0 };
    if index == 0 {
        return start.ask(601, 0, size == 0);
    }
    start
        .ask(602, 0, size % 2 == 0)
        .or(start.ask(603, 3, 4 <= size))
        .or(start.ask(604, 254, size <= 254))
        .or(start.ask(605, 0, octets::peek(block, 0) as usize == size))
        .or(start.ask(606, 1, octets::peek(block, 1) == STRING))
}
