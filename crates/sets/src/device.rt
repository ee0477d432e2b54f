// The device descriptor and the serial block. Groups 3 and 6.
ghost use Rattle.std.specs.Prelude.{◌≡◌, ◌&&◌, ◌+◌, ◌≤◌, length, eqb};
ghost use Rattle.std.proofs.Math.ListN.{get_elem?};
ghost use Rattle.octets.specs.Sentences.{pick};
ghost use Rattle.sets.specs.Contents.{entries_of};
ghost use Rattle.sets.specs.Pieces.{pieces_in};
ghost use Rattle.sets.specs.Device.{good_device, device_body, iSerialNumber};
ghost use Rattle.sets.specs.Opening.{one_store, good_serial};
ghost use Rattle.sets.specs.Found.{found};
ghost use Rattle.sets.specs.Checks.{good_device_entry, device_refers};

use crate::Entry;
use crate::capabilities::good_capabilities;
use crate::contents::{body_of, body_whole, entry_of};
use descriptors::limits::Limits;
use descriptors::types::{DEVICE, STRING};
use octets::table::holds;

// The device descriptor, beside the number of type 2 entries.
fn good_device(body: &[u8], configurations: u8, limits: Limits) -> bool
    ensures { result ≡ good_device limits configurations body.now }
{
    if body.len() != 18 {
        return false;
    }
    let listed = octets::peek(body, 17);
    (octets::peek(body, 0) == 18)
        & (octets::peek(body, 1) == DEVICE)
        & descriptors::limits::is_doubled(limits.control, octets::peek(body, 7) as u16)
        & (!(octets::peek(body, 4) == 0) | (octets::peek(body, 5) == 0))
        & (1 <= listed)
        & (listed <= 8)
        & (listed == configurations)
}

// The device descriptor; empty where there is none.
pub fn device_body(set: &[u8]) -> &[u8]
    ensures { result.now ≡ device_body set.now }
{
    match entry_of(set, DEVICE, 0) {
        Some(e) => body_of(set, e),
        None => &set[0..0],
    }
}

// The device entry, where there is one alone.
pub fn sole_entry(set: &[u8], devices: u8) -> Option<Entry>
    ensures { result ≡ pick (eqb devices 1) (found (get_elem? (entries_of 1 set.now) 0)) None }
{
    if devices == 1 {
        return entry_of(set, DEVICE, 0);
    }
    None
}

// Group 3, of the device entry and so many configurations, once the contents are good.
pub fn good_devices(set: &[u8], e: Entry, configurations: u8, limits: Limits) -> bool
    requires { e.offset + e.length ≤ length set.now }
    ensures { result ≡ (one_store limits (pieces_in set.now) && good_device_entry limits set.now e configurations) }
{
    good_capabilities(set, limits)
        & ((e.index == 0)
            & (e.language == 0)
            & good_device(body_whole(set, e), configurations, limits))
}

// The index of the serial number's string, 0 where there is none.
pub fn serial_index(set: &[u8]) -> u8
    ensures { result ≡ iSerialNumber (device_body set.now) }
{
    octets::peek(device_body(set), 16)
}

// Whether the device's three string references are in `names`.
pub fn device_refers(device: &[u8], names: &[u32; 8]) -> bool
    ensures { result ≡ device_refers names.now device.now }
{
    holds(names, octets::peek(device, 14))
        & holds(names, octets::peek(device, 15))
        & holds(names, octets::peek(device, 16))
}

// Group 6.
pub fn good_serial(index: u8, block: &[u8]) -> bool
    ensures { result ≡ good_serial index block.now }
{
    let size = block.len();
    if index == 0 {
        return size == 0;
    }
    (4 <= size)
        & (size <= 254)
        & (size % 2 == 0)
        & (octets::peek(block, 0) as usize == size)
        & (octets::peek(block, 1) == STRING)
}
