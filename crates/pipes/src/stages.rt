// The stages of a transfer (docs/PIPE.md, 7), as byte 0 of the pipe record has them.
// Kept: bytes and no enum, since any may stand in the record that C lends; whether it fits is told of each (pipes/Transfer: `fits`).
pub const IDLE: u8 = 0;

pub const ASKING_SETUP: u8 = 1;

pub const DATA_IN: u8 = 2;

pub const STATUS_OUT: u8 = 3;

pub const DATA_OUT: u8 = 4;

pub const ASKING_BYTES: u8 = 5;

pub const STATUS_IN: u8 = 6;

pub const STALLED: u8 = 7;
