// Bytes, as the answers have them.
use std::io;

// The first bytes, in hexadecimal; two points stand for what is left out.
pub fn print_bytes(rt: &impl Print, bytes: &[u8], most: usize) -> io::Result<()> {
    for byte in buffers::head(bytes, most) {
        print!(rt; "{byte:02x}")?;
    }
    if most < bytes.len() {
        print!(rt; "..")?;
    }
    Ok(())
}
