// The lister's lines, written into a lent buffer.
#![tactic(auto)]

ghost use Rattle.std.specs.Prelude.{◌≡◌, true, ◌≤◌, length};
ghost use mathlib.Core.List.{flat_map};
ghost use Rattle.octets.specs.Sentences.{every};
ghost use Rattle.descriptors.specs.declared.limits.Limits.{Limits};
ghost use Rattle.descriptors.specs.Cut.{cut, well_cut};
ghost use Rattle.descriptors.specs.Configuration.{good_configuration};
ghost use Rattle.descriptors.specs.Walk.{setting_at};
ghost use Rattle.sets.specs.Contents.{bodies};
ghost use Rattle.sets.specs.Opening.{lent};
ghost use Rattle.buffers.specs.Written.{Room, Wrote};
ghost use Rattle.listing.specs.Listing.{decimal, fields, line, endpoint_line, configuration_lines, accepted_lines, listing};
ghost use Rattle.listing.specs.Listed.{room, Listed};
ghost use Rattle.listing.specs.Written.{lead, interface_line, line_at, descriptor_lines};

use buffers::Writer;
use descriptors::limits::Limits;
use descriptors::walk::{BEFORE_FIRST, Stand};
use descriptors::{types, walk};
use sets::contents::{body_of, count_of, entry_at};
use sets::opening::{number, opening};

// The length of a buffer in which the text of any set has room.
pub const ROOM: usize = 49152;

// The digit of a power of ten, from the first that is not zero on.
fn put_lead(w: &mut Writer<'_>, x: u16, power: u16)
    requires room { Room w.old (lead power x) }
    requires le_power { 1 ≤ power }
    ensures { Wrote w.old (lead power x) w.new }
{
    if power <= x {
        w.put(b'0' + (x / power % 10) as u8);
    }
}

// A number in decimal.
// Kept: digit by digit; std's formatting writes through a `fmt::Write` that may fail, so each line would have to say that it does not.
fn put_decimal(w: &mut Writer<'_>, x: u16)
    requires { Room w.old (decimal x) }
    ensures { Wrote w.old (decimal x) w.new }
{
    for power in [10000, 1000, 100, 10] {
        put_lead(w, x, power);
    }
    w.put(b'0' + (x % 10) as u8);
}

// The fields of a line, each after a space, and the line feed.
fn put_fields(w: &mut Writer<'_>, numbers: &[u16])
    requires { Room w.old (fields numbers.now) }
    ensures { Wrote w.old (fields numbers.now) w.new }
{
    for number in numbers {
        w.put(b' ');
        put_decimal(w, *number);
    }
    w.put(b'\n');
}

// A line: its word and its fields.
fn put_line(w: &mut Writer<'_>, word: &[u8], numbers: &[u16])
    requires { Room w.old (line word.now numbers.now) }
    ensures { Wrote w.old (line word.now numbers.now) w.new }
{
    // Through a writer of its own: its place stays in a register, where that of `w` would be read from memory again after each byte.
    let mut own = Writer {
        out: &mut *w.out,
        at: w.at,
    };
    own.put_bytes(word);
    put_fields(&mut own, numbers);
    w.at = own.at;
}

// The line of an interface descriptor, which stands at `stand`.
fn put_interface(w: &mut Writer<'_>, d: &[u8], stand: Stand)
    requires { Room w.old (interface_line (setting_at stand) d.now) }
    ensures { Wrote w.old (interface_line (setting_at stand) d.now) w.new }
{
    let interface = stand.interface as u16;
    let alternate = stand.alternate as u16;
    let endpoints = octets::peek(d, 4) as u16;
    put_line(w, b"I", &[interface, alternate, endpoints]);
}

// An endpoint descriptor's line.
fn put_endpoint(w: &mut Writer<'_>, d: &[u8])
    requires { Room w.old (endpoint_line d.now) }
    ensures { Wrote w.old (endpoint_line d.now) w.new }
{
    let address = octets::peek(d, 2) as u16;
    let transfer = (octets::peek(d, 3) % 4) as u16;
    let size = octets::word(d, 4);
    put_line(w, b"E", &[address, transfer, size]);
}

// The line of a descriptor behind the first, if it is an interface's or an endpoint's.
fn put_descriptor(w: &mut Writer<'_>, d: &[u8], stand: Stand)
    requires { Room w.old (line_at stand d.now) }
    ensures { Wrote w.old (line_at stand d.now) w.new }
{
    match octets::peek(d, 1) {
        types::INTERFACE => put_interface(w, d, stand),
        types::ENDPOINT => put_endpoint(w, d),
        _ => {}
    }
}

// The lines of the descriptors behind the first.
fn put_descriptors(w: &mut Writer<'_>, body: &[u8])
    requires body_value { well_cut (cut body.now) ≡ true }
    requires room { Room w.old (descriptor_lines body.now) }
    ensures { Wrote w.old (descriptor_lines body.now) w.new }
{
    let mut last = BEFORE_FIRST;
    let mut from = octets::peek(body, 0) as usize;
    while from < body.len() {
        let step = walk::step_over(body, from, last);
        let end = step.end;
        last = step.setting;
        put_descriptor(w, &body[from..end], step.stand);
        from = end;
    }
}

// The lines of a configuration.
fn put_configuration(w: &mut Writer<'_>, body: &[u8])
    requires body_value { (l : Limits) × (good_configuration l body.now ≡ true) }
    requires room { Room w.old (configuration_lines body.now) }
    ensures { Wrote w.old (configuration_lines body.now) w.new }
{
    let value = octets::peek(body, 5) as u16;
    let interfaces = octets::peek(body, 4) as u16;
    put_line(w, b"C", &[value, interfaces]);
    put_descriptors(w, body);
}

// The lines of all configurations, in the set's order.
fn put_configurations(w: &mut Writer<'_>, set: &[u8])
    requires set_value { (l : Limits) × (every (good_configuration l) (bodies 2 set.now) ≡ true) }
    requires room { Room w.old (flat_map configuration_lines (bodies 2 set.now)) }
    ensures { Wrote w.old (flat_map configuration_lines (bodies 2 set.now)) w.new }
{
    let count = octets::peek(set, 2);
    for i in 0..count {
        let e = entry_at(set, i);
        if e.kind == types::CONFIGURATION {
            put_configuration(w, body_of(set, e));
        }
    }
}

// The lines of an accepted set.
fn put_accepted(w: &mut Writer<'_>, set: &[u8])
    requires set_value { (l : Limits) × (every (good_configuration l) (bodies 2 set.now) ≡ true) }
    requires room { Room w.old (accepted_lines set.now) }
    ensures { Wrote w.old (accepted_lines set.now) w.new }
{
    let configurations = count_of(set, types::CONFIGURATION) as u16;
    put_line(w, b"ACCEPTED", &[configurations]);
    put_configurations(w, set);
}

// The lines of a set, accepted or refused.
fn put_listing(w: &mut Writer<'_>, set: &[u8], serial: &[u8], limits: Limits)
    requires { Room w.old (listing limits (lent set.now serial.now)) }
    ensures { Wrote w.old (listing limits (lent set.now serial.now)) w.new }
{
    let opened = opening(set, serial, limits);
    match opened {
        Ok(()) => put_accepted(w, set),
        Err(_) => put_line(w, b"REFUSED", &[number(opened) as u16]),
    }
}

// The lister's text of a set, of the kind that is named, and a serial block, at the buffer's start; its length comes back.
pub fn list(set: &[u8], serial: &[u8], limits: Limits, out: &mut [u8]) -> usize
    requires { room ≤ length out.old }
    ensures { Listed limits (lent set.now serial.now) out.old out.new result }
{
    let mut w = Writer { out, at: 0 };
    put_listing(&mut w, set, serial, limits);
    w.at
}
