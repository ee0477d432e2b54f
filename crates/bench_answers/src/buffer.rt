// A buffer on the bench: full of one byte before a call, and looked at whole after it.
ghost use Rattle.std.specs.Prelude.{◌≡◌, OnErr, OnOk, replicate, vec_len};

use std::alloc::AllocError;

pub const FILLER: u8 = 170;

// Fills a buffer anew, as long as is asked; it is empty where memory runs out.
pub fn refill(out: &mut Vec<u8>, length: usize) -> Result<(), AllocError>
    ensures ok { OnOk result (out.new.items ≡ replicate length 170) }
    ensures err { OnErr result (vec_len out.new ≡ 0) }
{
    out.clear();
    out.resize(length, FILLER)
}

// Whether a buffer has what was wanted at its start, and behind it what was there before.
pub fn is_good(out: &[u8], wanted: &[u8]) -> bool {
    let start = buffers::head(out, wanted.len());
    let behind = buffers::tail(out, wanted.len());
    start == wanted && behind.iter().all(|byte| *byte == FILLER)
}
