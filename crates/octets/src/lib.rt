// Bytes and little-endian numbers of a slice, and the bits of a u32.
#![tactic(auto)]

pub mod table;

ghost use Rattle.std.specs.Prelude.{◌≡◌, ◌&&◌, not, ℕ, ◌<◌};
ghost use Rattle.octets.specs.Octets.{byte, word};
ghost use Rattle.octets.specs.Bit.{bit, set_bit, clear_bit, flip_bit};
ghost use Rattle.octets.specs.Sentences.{below, ◌⇒◌};

// The byte at k, or 0 past the end.
pub fn peek(bytes: &[u8], k: usize) -> u8
    ensures { result ≡ byte bytes.now k }
{
    match bytes.get(k) {
        Some(byte) => *byte,
        None => 0,
    }
}

// The two-byte number at k, with 0 for what is past the end.
pub fn word(bytes: &[u8], k: usize) -> u16
    ensures { result ≡ word bytes.now k }
{
    if k < bytes.len() {
        return u16::from_le_bytes([peek(bytes, k), peek(bytes, k + 1)]);
    }
    0
}

// Whether bit e is set.
// Kept: these four ask `e < 32`, which a shift needs; a type for a bit's place would be made at each call and asked once.
pub fn test_bit(word: u32, e: u32) -> bool
    requires { e < 32 }
    ensures { result ≡ bit word e }
{
    (word >> e) % 2 == 1
}

// The number with bit e set.
pub fn set_bit(word: u32, e: u32) -> u32
    requires { e < 32 }
    ensures { result ≡ set_bit word e }
{
    word | (1 << e)
}

// The number with bit e cleared.
pub fn clear_bit(word: u32, e: u32) -> u32
    requires { e < 32 }
    ensures { result ≡ clear_bit word e }
{
    word & !(1 << e)
}

// The number with bit e flipped.
pub fn flip_bit(word: u32, e: u32) -> u32
    requires { e < 32 }
    ensures { result ≡ flip_bit word e }
{
    word ^ (1 << e)
}

// The number without the bits of another.
pub fn without(word: u32, bits: u32) -> u32
    ensures { (k : ℕ) → k < 32 → bit result k ≡ (bit word k && not (bit bits k)) }
{
    word & !bits
}

// Whether a number has only bits that are allowed.
pub fn has_only(word: u32, allowed: u32) -> bool
    ensures { result ≡ below 32 (λ k. bit word k ⇒ bit allowed k) }
{
    (word & !allowed) == 0
}
