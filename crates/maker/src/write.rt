// Pieces become a set, or each piece that stands in the way is told. The word `super` names a SuperSpeed set.
use crate::told;
use descriptors::limits::Limits;
use set_writer::LONGEST_SET;
use std::env::Env;
use std::fs::Files;
use std::io;

// The limits of the set that was asked for.
// Kept: no match on `argument`, which takes memory, since this can't fail.
pub fn limits(rt: &impl Env) -> Limits {
    if files::is_argument(rt, 2, b"super") {
        return descriptors::limits::super_speed();
    }
    descriptors::limits::full_speed()
}

fn write(
    rt: &(impl Files + Print + Eprint + AllocGlobal),
    limits: Limits,
    stream: &[u8],
    serial: &[u8],
) -> io::Result<()> {
    let mut set = vec![in rt.alloc(); 0; LONGEST_SET]?;
    match set_writer::write(stream, serial, limits, &mut set) {
        Ok(()) => {
            let size = set_writer::length_written(true, &set) as usize;
            files::write(rt, "set.bin", buffers::head(&set, size))
        }
        Err(why) => told::refused(rt, limits, stream, why),
    }
}

pub fn run(rt: &(impl Env + Files + Print + Eprint + AllocGlobal)) -> io::Result<()> {
    // Four times what the longest set takes: of a longer file nothing is told.
    let stream = files::contents(rt, "pieces.bin", 65535)?;
    let serial = files::contents(rt, "unit.bin", 255)?;
    if stream.len() == 65535 {
        return println!(rt; "pieces.bin is too long: a set has at most 16,384 bytes");
    }
    write(rt, limits(rt), &stream, &serial)
}
