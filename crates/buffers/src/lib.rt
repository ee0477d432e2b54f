// Bytes written into a lent buffer, one text behind another; and parts of some bytes.
#![tactic(auto)]

ghost use Rattle.std.specs.Prelude.{◌≡◌, ◌/◌, ◌%◌, [], ◌∷◌, take, drop};
ghost use Rattle.buffers.specs.Written.{Room, Wrote};

// A lent buffer, and the place in it at which the next byte is written.
#[derive(Drop)]
pub struct Writer<'a> {
    pub out: &'a mut [u8],
    pub at: usize,
}

impl Writer<'_> {
    // One byte.
    pub fn put(&mut self, byte: u8)
        requires { Room self.old (byte ∷ []) }
        ensures { Wrote self.old (byte ∷ []) self.new }
    {
        self.out[self.at] = byte;
        self.at += 1;
    }

    // Bytes end to end.
    pub fn put_bytes(&mut self, text: &[u8])
        requires { Room self.old text.now }
        ensures { Wrote self.old text.now self.new }
    {
        let end = self.at + text.len();
        self.out[self.at..end].copy_from_slice(text);
        self.at = end;
    }

    // A number of two bytes, the low one first.
    pub fn put_word(&mut self, x: u16)
        requires { Room self.old (x % 256 ∷ x / 256 ∷ []) }
        ensures { Wrote self.old (x % 256 ∷ x / 256 ∷ []) self.new }
    {
        self.put_bytes(&x.to_le_bytes());
    }
}

// What is left of some bytes from a place on.
pub fn tail(bytes: &[u8], at: usize) -> &[u8]
    ensures { result.now ≡ drop at bytes.now }
{
    bytes.get(at..).unwrap_or(&bytes[..0])
}

// The first of some bytes.
pub fn head(bytes: &[u8], size: usize) -> &[u8]
    ensures { result.now ≡ take size bytes.now }
{
    bytes.get(..size).unwrap_or(bytes)
}
