// What a trim saves is told, and the trimmed set goes to a file of its own.
use crate::told;
use descriptors::limits;
use sets::opening;
use std::fs::Files;
use std::io;

// The trimmed set is the buffer's first `total` bytes.
pub fn trim(rt: &(impl Files + Print + Eprint), set: &mut [u8], serial: &[u8]) -> io::Result<()> {
    let strings = octets::peek(set, 2);
    if let Err(broken) = trimming::trim(set, serial, limits::full_speed()) {
        return told::tell_number(rt, opening::number(Err(broken)), 0);
    }
    let trimmed = buffers::head(set, octets::word(set, 0) as usize);
    let freed = buffers::tail(set, trimmed.len()).len();
    let dropped = strings.saturating_sub(octets::peek(set, 2));
    println!(rt; "strings dropped: {dropped}, bytes saved: {freed}")?;
    files::write(rt, "trimmed.bin", trimmed)
}
