// Runs of events: every answer is told, and last the record. What happens is an image of 32 bytes and the events: of each its kind (0 setup,
// 1 status end, 2 bus reset, 3 halt, 4 packet passed, 5 power, 6 suspend, 7 resume, 8 wake), the sizes of its words and of its bytes (1 each),
// the words, which are written as they stand, and the bytes: a setup, an address or a source. tests/runs makes them.
ghost use Rattle.std.specs.Prelude.{◌<◌, ◌≤◌, length};

use crate::words::print_bytes;
use events::{Answer, Event, reply};
use records::Device;
use std::io;

// No reply has as many packets.
const MOST_PACKETS: u32 = 8193;

// The lengths of a reply's packets.
fn print_packets(rt: &impl Print, length: usize, asked: u16, size: u32) -> io::Result<()> {
    for k in 0..MOST_PACKETS {
        let Some(packet) = packets::packet_of(length, asked, size, k) else {
            break;
        };
        let bytes = packet.length;
        print!(rt; " {bytes}")?;
    }
    Ok(())
}

// The bytes that an answer hands back.
fn print_handed(rt: &impl Print, answer: Answer) -> io::Result<()> {
    match answer {
        Answer::OneByte(first) => print!(rt; " {first:02x}"),
        Answer::TwoBytes(first, second) => print!(rt; " {first:02x}{second:02x}"),
        _ => Ok(()),
    }
}

// An answer: its number, its bytes, and its part in packets of `size` bytes, for the length asked.
fn print_answer(rt: &impl Print, answer: Answer, asked: u16, size: u32) -> io::Result<()> {
    let number = reply::number(answer);
    print!(rt; " -> {number}")?;
    print_handed(rt, answer)?;
    match answer {
        Answer::SetPart { offset, length } => {
            print!(rt; " set {offset} {length}, packets")?;
            print_packets(rt, length as usize, asked, size)?;
        }
        Answer::SerialPart { length } => {
            print!(rt; " serial 0 {length}, packets")?;
            print_packets(rt, length as usize, asked, size)?;
        }
        _ => {}
    }
    println!(rt)
}

fn event_of(event_number: u8, bytes: &[u8]) -> Event {
    match event_number {
        0 => events::setup_event(bytes),
        1 => Event::StatusEnd,
        2 => Event::BusReset(0),
        3 => Event::Halt(octets::peek(bytes, 0)),
        4 => Event::PacketPassed(octets::peek(bytes, 0)),
        5 => Event::Power(octets::peek(bytes, 0)),
        6 => Event::Suspend,
        7 => Event::Resume,
        _ => Event::Wake,
    }
}

// Answers an event, and gives the record that it leaves.
fn answer_event(
    rt: &impl Print,
    set: &[u8],
    serial: &[u8],
    device: Device,
    event: &[u8],
) -> io::Result<Device> {
    let size = octets::peek(event, 1) as usize;
    rt.write_all(buffers::head(buffers::tail(event, 3), size))?;
    let bytes = buffers::tail(event, 3 + size);
    let outcome = steps::step(set, serial, device, event_of(octets::peek(event, 0), bytes));
    let answer = outcome.answer;
    let largest = octets::peek(sets::device::device_body(set), 7) as u32;
    print_answer(rt, answer, octets::word(bytes, 6), largest)?;
    Ok(outcome.device)
}

// How long the first event of what is left of a run is; all that is left, where the event is cut short.
fn first_size(rest: &[u8]) -> usize
    requires { 0 < length rest.now }
    ensures { (0 < result) × (result ≤ length rest.now) }
{
    let size = 3 + octets::peek(rest, 1) as usize + octets::peek(rest, 2) as usize;
    if rest.len() < size {
        return rest.len();
    }
    size
}

// Runs the events, and gives the record that they leave.
fn answer_all(
    rt: &impl Print,
    set: &[u8],
    serial: &[u8],
    start: Device,
    events: &[u8],
) -> io::Result<Device> {
    let mut device = start;
    let mut at = 0;
    while at < events.len() {
        let end = at + first_size(&events[at..]);
        device = answer_event(rt, set, serial, device, &events[at..end])?;
        at = end;
    }
    Ok(device)
}

// The record of an image; the fresh one, where its length is another.
fn record_of(image: &[u8]) -> Device {
    match image.as_array() {
        Some(whole) => records::laid(whole),
        None => records::fresh(),
    }
}

fn print_record(rt: &impl Print, device: Device) -> io::Result<()> {
    let mut image = [0u8; 32];
    records::store(device, &mut image);
    print_bytes(rt, &image, 32)?;
    println!(rt)
}

// Runs the events on the record of an image.
pub fn run(rt: &impl Print, set: &[u8], serial: &[u8], given: &[u8]) -> io::Result<()> {
    let device = record_of(buffers::head(given, 32));
    let ended = answer_all(rt, set, serial, device, buffers::tail(given, 32))?;
    print_record(rt, ended)
}
