// What the check of a body knows of the descriptors so far. In a file of its own, since its ghost field may not lead back to it.
ghost use Rattle.std.specs.Prelude.{IsTrue};
ghost use Rattle.descriptors.specs.Low.{low};

use crate::sequence::Order;

// The order of the descriptors, and whether every reference in them is in the table. `low`: the next setting's number is no sum that overflows, and
// there are no more than 16 interfaces.
#[derive(Clone, Copy)]
pub struct Checked {
    pub order: Order,
    pub refers: bool,
    pub ghost low: { IsTrue (low order.last) },
}
