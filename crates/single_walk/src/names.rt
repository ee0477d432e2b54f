// The numbers that a string reference may be.
ghost use Rattle.std.specs.Prelude.{◌≡◌, true};
ghost use Rattle.octets.specs.Table.{has};

// As a table of bits. Number 0, no string, is among them: it is the most frequent, and so it is not looked up.
#[derive(Clone, Copy)]
pub struct Names<'a> {
    pub table: &'a [u32; 8],
    pub ghost zero: { has table.now 0 ≡ true },
}
