// A dump becomes a set, or what stands in the way is told.
use crate::parts::{Kind, Part, parts};
use crate::told;
use dumps::import::NotImported;
use set_writer::{LONGEST_SET, NotWritten};
use sets::opening::Broken;
use std::fs::Files;
use std::io;

// As many bytes as a device descriptor has, with which a dump begins.
const DEVICE_LENGTH: usize = 18;

// 23: the body that does not end where its wTotalLength says. 21: the body that breaks a rule by itself.
fn tell_body(rt: &impl Print, body: Part, why: NotImported) -> io::Result<()> {
    if why == NotImported::DumpBroken {
        if body.whole {
            return Ok(());
        }
        let size = body.size;
        let left = body.rest.len();
        return println!(rt; "{body} says wTotalLength {size}, and {left} bytes are left");
    }
    let verdict = descriptors::check::good_configuration(
        buffers::head(body.rest, body.size),
        descriptors::limits::full_speed(),
        &[0; 8],
    );
    if !verdict.good {
        println!(rt; "{body} breaks a rule by itself at full speed")?;
    }
    Ok(())
}

fn refused(rt: &impl Print, dump: &[u8], why: NotImported) -> io::Result<()> {
    told::tell_number(rt, why.number(), why.opening())?;
    if dump.len() <= DEVICE_LENGTH {
        return println!(rt;
            "    a device descriptor of 18 bytes and a configuration are not there"
        );
    }
    let device = NotImported::NotWritten(NotWritten::SetRefused(Some(Broken::Device)));
    if why == device || LONGEST_SET < dump.len() {
        return println!(rt;
            "    the device descriptor, or the whole, is none of a full-speed device"
        );
    }
    for body in parts(Kind::Configuration, dump, DEVICE_LENGTH) {
        tell_body(rt, body, why)?;
    }
    Ok(())
}

pub fn run(rt: &(impl Files + Print + Eprint + AllocGlobal)) -> io::Result<()> {
    // Linux shows at most 65,553 bytes: the device and one configuration of the greatest length are less.
    let dump = files::contents(rt, "descriptors", 131072)?;
    let mut set = vec![in rt.alloc(); 0; LONGEST_SET]?;
    match dumps::import::import(&dump, &mut set) {
        Ok(()) => {
            let size = set_writer::length_written(true, &set) as usize;
            files::write(rt, "set.bin", buffers::head(&set, size))
        }
        Err(why) => refused(rt, &dump, why),
    }
}
