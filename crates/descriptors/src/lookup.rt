// What is looked up of the endpoints of a configuration: one by its address, and their bits in a word of the record.
ghost use Rattle.std.specs.Prelude.{◌≡◌, ◌<◌};
ghost use Rattle.descriptors.specs.Configuration.{bit_of};
ghost use Rattle.descriptors.specs.Lookup.{with_bit};

// An address's bit in a word of the record: e for OUT number e, 16 + e for IN.
pub fn bit_of(address: u8) -> u32
    ensures { (result ≡ bit_of address) × (result < 32) }
{
    (address % 16) as u32 + 16 * (address / 128) as u32
}

// The bits, with that of the endpoint that a descriptor lists if it is `wanted`.
pub fn with_bit(bits: u32, d: &[u8], wanted: bool) -> u32
    ensures { result ≡ with_bit bits wanted d.now }
{
    if wanted {
        return octets::set_bit(bits, bit_of(octets::peek(d, 2)));
    }
    bits
}
