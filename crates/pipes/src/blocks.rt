// The blocks in which a reply may lie (docs/PIPE.md, 7), as byte 1 of the pipe record has them.
// Kept: bytes and no enum, since any may stand in the record that C lends; whether it fits is told of each (pipes/Transfer: `fits`).
pub const NOWHERE: u8 = 0;

pub const SET: u8 = 1;

pub const SERIAL: u8 = 2;

pub const APPLICATION: u8 = 3;
