// Which rule of opening is broken first, and at which byte. makers/explain puts it into words.
use descriptors::limits::Limits;
use sets::opening;
use std::fs::Files;
use std::io;

pub fn explain(rt: &impl Print, limits: Limits, set: &[u8], serial: &[u8]) -> io::Result<()> {
    match rules::explain(set, serial, limits) {
        Ok(()) => println!(rt; "ACCEPTED"),
        Err(told) => {
            let number = opening::number(Err(told.broken));
            let rule = told.rule;
            let place = told.place;
            println!(rt; "REFUSED {number} RULE {rule} BYTE {place}")
        }
    }
}

// A pair's rule is about one of three blocks: 0 the full-speed set, 1 the high-speed set, 2 the serial block.
fn explain_pair(rt: &impl Print, full: &[u8], high: &[u8], serial: &[u8]) -> io::Result<()> {
    match pair_rules::explain_two(full, high, serial) {
        Ok(()) => println!(rt; "ACCEPTED"),
        Err(told) => {
            let number = opening::number(Err(told.broken));
            let rule = told.rule;
            let block = told.block as u8;
            let place = told.place;
            println!(rt; "REFUSED {number} RULE {rule} BLOCK {block} BYTE {place}")
        }
    }
}

pub fn run_pair(rt: &(impl Files + Print + AllocGlobal)) -> io::Result<()> {
    // One byte more than any set, and more than any serial block may have: a longer file breaks a rule too.
    let full = files::contents(rt, "full.bin", 16385)?;
    let high = files::contents(rt, "high.bin", 16385)?;
    let serial = files::contents(rt, "unit.bin", 256)?;
    explain_pair(rt, &full, &high, &serial)
}
