// A set becomes a dump: the file `descriptors`, as Linux would show it for a device with this set.
use crate::told;
use std::fs::Files;
use std::io;

pub fn export(
    rt: &(impl Files + Print + Eprint + AllocGlobal),
    set: &[u8],
    serial: &[u8],
) -> io::Result<()> {
    let mut dump = vec![in rt.alloc(); 0; set_writer::LONGEST_SET]?;
    match dumps::export::export(set, serial, &mut dump) {
        Ok(written) => files::write(rt, "descriptors", buffers::head(&dump, written as usize)),
        Err(why) => told::tell_number(rt, why.number(), 0),
    }
}
