// The lister: reads set.bin and unit.bin where it is run, and writes the set's lines or its refusal. The argument `super` names a SuperSpeed set.
#![tactic(auto)]

use std::io;

fn main(rt: HostRuntime) -> io::Result<()> {
    let limits = match files::argument(&rt, 1)?.as_str() {
        "super" => descriptors::limits::super_speed(),
        _ => descriptors::limits::full_speed(),
    };
    // One byte more than any set or serial block may have: a longer file is refused too.
    let set = files::contents(&rt, "set.bin", 16385)?;
    let serial = files::contents(&rt, "unit.bin", 255)?;
    let mut out = vec![in rt.alloc(); 0; listing::ROOM]?;
    let size = listing::list(&set, &serial, limits, &mut out);
    rt.write_all(&out[..size])
}
