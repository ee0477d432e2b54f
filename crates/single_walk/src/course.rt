// How far the walk that checks and collects is. In a file of its own, since its ghost field may not lead back to it.
ghost use Rattle.std.specs.Prelude.{IsTrue};
ghost use Rattle.descriptors.specs.Low.{low};

use crate::walk::Finds;
use descriptors::sequence::Order;

// What a setting is to what is asked: neither current nor asked for; the one asked for, which is not current; current; current and of the interface asked for.
#[derive(Clone, Copy)]
pub enum Role {
    Other,
    AskedFor,
    Current,
    CurrentAskedFor,
}

// How far the walk is; the role of this setting, and whether every string reference so far is among the names. `low`: the next setting's number is no
// sum that overflows, and there are no more than 16 interfaces.
#[derive(Clone, Copy)]
pub struct Course {
    pub order: Order,
    pub finds: Finds,
    pub role: Role,
    pub refers: bool,
    pub ghost low: { IsTrue (low order.last) },
}
