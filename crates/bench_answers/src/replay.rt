// Recorded control transfers, replayed on the set of the device that was recorded, and our answers beside its own. tests/replay makes them.
use crate::report::{self, How};
use events::{Answer, Event};
use records::Device;
use std::io;

// The bytes of an answer's part.
fn part_of<'a>(set: &'a [u8], serial: &'a [u8], answer: Answer) -> &'a [u8] {
    match answer {
        Answer::SetPart { offset, length } => {
            buffers::head(buffers::tail(set, offset as usize), length as usize)
        }
        Answer::SerialPart { length } => buffers::head(serial, length as usize),
        _ => &[],
    }
}

// Replays one transfer, its status stage included, and gives the record that it leaves.
fn replay_one<'a>(
    rt: &impl Print,
    set: &'a [u8],
    serial: &'a [u8],
    device: Device,
    setup: &[u8],
    how: How,
    recorded: &[u8],
) -> io::Result<Device> {
    let outcome = steps::step(set, serial, device, events::setup_event(setup));
    let answer = outcome.answer;
    let part = part_of(set, serial, answer);
    report::print_transfer(rt, setup, answer, part, how, recorded)?;
    if let Answer::Refused(_) = answer {
        return Ok(outcome.device);
    }
    let ended = steps::step(set, serial, outcome.device, Event::StatusEnd);
    Ok(ended.device)
}

// Replays the transfers on a fresh record. A transfer is eight setup bytes, a byte that says how it went, the size of the recorded
// answer (two bytes) and the answer.
fn replay_all<'a>(
    rt: &impl Print,
    set: &'a [u8],
    serial: &'a [u8],
    transfers: &[u8],
) -> io::Result<()> {
    let mut device = records::fresh();
    let mut at = 0;
    while at < transfers.len() {
        let rest = &transfers[at..];
        let size = 11 + octets::word(rest, 9) as usize;
        if rest.len() < size {
            return Ok(());
        }
        device = replay_one(
            rt,
            set,
            serial,
            device,
            &rest[0..8],
            How::from(octets::peek(rest, 8)),
            &rest[11..size],
        )?;
        at += size;
    }
    Ok(())
}

pub fn replay<'a>(
    rt: &impl Print,
    set: &'a [u8],
    serial: &'a [u8],
    transfers: &[u8],
) -> io::Result<()> {
    let opening = steps::opening(set, serial);
    report::opened(rt, opening)?;
    if opening.is_ok() {
        replay_all(rt, set, serial, transfers)?;
    }
    Ok(())
}
