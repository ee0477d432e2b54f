// A dump: a device descriptor and configuration bodies end to end. Splitting it, and its bodies with their string references zeroed, as a stream of pieces.
#![tactic(auto)]

ghost use Rattle.std.specs.Prelude.{◌≡◌, true, map, ◌<◌, length, set, drop};
ghost use Rattle.octets.specs.Octets.{word};
ghost use Rattle.buffers.specs.Written.{Room, Wrote};
ghost use Rattle.dumps.specs.Dump.{splits, configurations_in, has_name, zeroed_device, zeroed_configuration, numbered, pieces_for};
ghost use Rattle.dumps.specs.Import.{split_of, headed};
ghost use Rattle.set_writer.specs.Stream.{stream_of};

use buffers::Writer;
use descriptors::walk::BEFORE_FIRST;
use descriptors::{types, walk};

pub mod export;
pub mod import;

// The bytes of a device descriptor.
const DEVICE_LENGTH: usize = 18;

// How many bytes the configuration body at a place says it has.
fn size_at(dump: &[u8], at: usize) -> usize
    ensures { (result ≡ word (drop at dump.now) 2) × (result < 65536) }
{
    octets::word(buffers::tail(dump, at), 2) as usize
}

// How many configuration bodies the dump has, if it splits.
pub fn split(dump: &[u8]) -> Option<usize>
    ensures { result ≡ split_of dump.now }
{
    if dump.len() <= DEVICE_LENGTH {
        return None;
    }
    let mut n = 0;
    let mut at = DEVICE_LENGTH;
    while at < dump.len() {
        let size = size_at(dump, at);
        if size < 9 {
            return None;
        }
        if dump.len() - at < size {
            return None;
        }
        at += size;
        n += 1;
    }
    Some(n)
}

// A byte becomes 0, where there is one.
fn blank(bytes: &mut [u8], at: usize)
    ensures { bytes.new ≡ set bytes.old at 0 }
{
    if at < bytes.len() {
        bytes[at] = 0;
    }
}

// The device descriptor, its three references zeroed.
fn put_device(w: &mut Writer<'_>, body: &[u8])
    requires { Room w.old body.now }
    ensures { Wrote w.old (zeroed_device body.now) w.new }
{
    let from = w.at;
    w.put_bytes(body);
    zero_device(&mut w.out[from..w.at]);
}

// The three references of a device descriptor.
fn zero_device(body: &mut [u8])
    ensures { body.new ≡ zeroed_device body.old }
{
    blank(body, 14);
    blank(body, 15);
    blank(body, 16);
}

// Whether a descriptor is of type 4, whole, and has an iInterface.
fn has_name(d: &[u8]) -> bool
    ensures { result ≡ has_name d.now }
{
    (octets::peek(d, 1) == types::INTERFACE)
        & (9 <= d.len())
        & (octets::peek(d, 0) as usize == d.len())
}

// A configuration body, its references zeroed.
fn put_configuration(w: &mut Writer<'_>, body: &[u8])
    requires { Room w.old body.now }
    ensures { Wrote w.old (zeroed_configuration body.now) w.new }
{
    let from = w.at;
    w.put_bytes(body);
    zero_configuration(body, &mut w.out[from..w.at]);
}

// The references in a copy of a configuration body. Where the body breaks off the walk is over: such a set is refused.
fn zero_configuration(body: &[u8], copy: &mut [u8])
    requires { copy.old ≡ body.now }
    ensures { copy.new ≡ zeroed_configuration body.now }
{
    blank(copy, 6);
    let mut last = BEFORE_FIRST;
    let mut at = 0;
    while at < body.len() {
        let Some(step) = walk::advance(body, at, last) else {
            return;
        };
        let end = step.end;
        if has_name(&body[at..end]) {
            blank(copy, at + 8);
        }
        last = step.setting;
        at = end;
    }
}

// What stands before a piece's body.
fn put_head(w: &mut Writer<'_>, kind: u8, index: u8, size: usize)
    requires room { Room w.old (headed kind index size) }
    requires size_bound { size < 65536 }
    ensures { Wrote w.old (headed kind index size) w.new }
{
    w.put(kind);
    w.put(index);
    w.put_word(0);
    w.put_word(size as u16);
}

// The configurations, as pieces.
fn put_configurations(w: &mut Writer<'_>, dump: &[u8])
    requires dump_value { splits dump.now ≡ true }
    requires dump_len_bound { length (configurations_in dump.now) < 256 }
    requires room { Room w.old (stream_of (numbered 0 (map zeroed_configuration (configurations_in dump.now)))) }
    ensures { Wrote w.old (stream_of (numbered 0 (map zeroed_configuration (configurations_in dump.now)))) w.new }
{
    let mut from = DEVICE_LENGTH;
    let mut index: u8 = 0;
    while from < dump.len() {
        let size = size_at(dump, from);
        put_head(w, types::CONFIGURATION, index, size);
        put_configuration(w, buffers::head(buffers::tail(dump, from), size));
        from += size;
        index += 1;
    }
}

// The whole dump as a stream of pieces.
pub fn put_stream(w: &mut Writer<'_>, dump: &[u8])
    requires dump_value { splits dump.now ≡ true }
    requires dump_len_bound { length (configurations_in dump.now) < 256 }
    requires room { Room w.old (stream_of (pieces_for dump.now)) }
    ensures { Wrote w.old (stream_of (pieces_for dump.now)) w.new }
{
    put_head(w, types::DEVICE, 0, DEVICE_LENGTH);
    put_device(w, buffers::head(dump, DEVICE_LENGTH));
    put_configurations(w, dump);
}
