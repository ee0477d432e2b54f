// A table of numbers below 256: number k is bit k % 32 of word k / 32.
// Kept: functions over the array, since any eight words are a table: a struct around them would carry no fact, and each contract would name its field.
ghost use Rattle.std.specs.Prelude.{◌≡◌};
ghost use Rattle.octets.specs.Table.{has, with};

// Whether number k is in a table.
pub fn holds(table: &[u32; 8], k: u8) -> bool
    ensures { result ≡ has table.now k }
{
    let at = (k / 32) as usize;
    crate::test_bit(table[at], (k % 32) as u32)
}

// Number k is put into a table.
pub fn join(table: &mut [u32; 8], k: u8)
    ensures { table.new ≡ with table.old k }
{
    let at = (k / 32) as usize;
    table[at] = crate::set_bit(table[at], (k % 32) as u32);
}
