// The orders to the peripheral, by their numbers (docs/PIPE.md, 5).
#[derive(Clone, Copy, PartialEq, Eq)]
pub enum Order {
    Nothing = 0,
    Send = 1,
    Await = 2,
    Receive = 3,
    Stall = 4,
    Ask = 5,
}
