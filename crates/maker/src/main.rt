// The makers' program. It goes by its first word, and reads and writes files where it is run:
//     write [super]   pieces.bin and unit.bin become set.bin
//     import          descriptors, as Linux shows it for a device, becomes set.bin
//     export          set.bin and unit.bin become descriptors
//     trim            set.bin and unit.bin become trimmed.bin
//     explain [super] which rule of opening set.bin with unit.bin breaks first, and at which byte
//     explain pair    the same of full.bin and high.bin with unit.bin, and of which of the three
#![tactic(auto)]

mod explain;
mod export;
mod import;
mod parts;
mod told;
mod trim;
mod write;

use std::env::Env;
use std::fs::Files;
use std::io;

// The words that take a set and its serial block.
fn work_on_set(
    rt: &(impl Env + Files + Print + Eprint + AllocGlobal),
    set: &mut [u8],
    serial: &[u8],
) -> io::Result<()> {
    match files::argument(rt, 1)?.as_str() {
        "export" => export::export(rt, set, serial),
        "trim" => trim::trim(rt, set, serial),
        "explain" => explain::explain(rt, write::limits(rt), set, serial),
        _ => println!(rt; "maker write [super] | import | export | trim | explain [super | pair]"),
    }
}

fn main(rt: HostRuntime) -> io::Result<()> {
    match files::argument(&rt, 1)?.as_str() {
        "write" => return write::run(&rt),
        "import" => return import::run(&rt),
        "explain" if files::argument(&rt, 2)?.as_str() == "pair" => return explain::run_pair(&rt),
        _ => {}
    }
    // One byte more than any set, and more than any serial block may have: a longer file breaks a rule too.
    let mut set = files::contents(&rt, "set.bin", 16385)?;
    let serial = files::contents(&rt, "unit.bin", 256)?;
    work_on_set(&rt, &mut set, &serial)
}
