// What is done with sets: listed, written, imported, exported and trimmed.
use crate::buffer::{is_good, refill};
use descriptors::limits::Limits;
use std::io;

// The number, why 21 was given, the length that is given back, and whether the buffer is as it should be.
// Kept: both are numbers, 0 for no opening number, since nothing is done with them but that they are printed, as the calls for C give them.
fn answer(rt: &impl Print, number: u8, opening: u8, written: u16, good: bool) -> io::Result<()> {
    print!(rt; "{number} ")?;
    if opening != 0 {
        print!(rt; "for {opening} ")?;
    }
    let verdict = if good { "good" } else { "not as it should be" };
    println!(rt; "{written} {verdict}")
}

// The buffer is as long as any listing, whatever the record says.
pub fn list(
    rt: &impl Print,
    set: &[u8],
    serial: &[u8],
    limits: Limits,
    out: &mut Vec<u8>,
) -> io::Result<()> {
    refill(out, listing::ROOM)?;
    let size = listing::list(set, serial, limits, out);
    rt.write_all(&out[..size])
}

pub fn write(
    rt: &impl Print,
    serial: &[u8],
    stream: &[u8],
    wanted: &[u8],
    out: &mut [u8],
) -> io::Result<()> {
    let number = match set_writer::write(stream, serial, descriptors::limits::full_speed(), out) {
        Ok(()) => 0,
        Err(why) => why.number(),
    };
    let written = set_writer::length_written(number == 0, out);
    answer(rt, number, 0, written, is_good(out, wanted))
}

pub fn import(rt: &impl Print, dump: &[u8], wanted: &[u8], out: &mut [u8]) -> io::Result<()> {
    let (number, opening) = match dumps::import::import(dump, out) {
        Ok(()) => (0, 0),
        Err(why) => (why.number(), why.opening()),
    };
    let written = set_writer::length_written(number == 0, out);
    answer(rt, number, opening, written, is_good(out, wanted))
}

pub fn export(
    rt: &impl Print,
    serial: &[u8],
    set: &[u8],
    wanted: &[u8],
    out: &mut [u8],
) -> io::Result<()> {
    let (number, written) = match dumps::export::export(set, serial, out) {
        Ok(written) => (0, written),
        Err(why) => (why.number(), 0),
    };
    answer(rt, number, 0, written, is_good(out, wanted))
}

// The buffer is as long as the set, which is trimmed in it.
pub fn trim(
    rt: &impl Print,
    serial: &[u8],
    set: &[u8],
    wanted: &[u8],
    out: &mut [u8],
) -> io::Result<()> {
    if out.len() < set.len() {
        return Ok(());
    }
    out[..set.len()].copy_from_slice(set);
    let trimmed = trimming::trim(out, serial, descriptors::limits::full_speed());
    let number = sets::opening::number(trimmed);
    let good = &*out == wanted;
    answer(rt, number, 0, octets::word(out, 0), good)
}
