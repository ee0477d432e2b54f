// The numbers of the wire's and the application's events (docs/PIPE.md, 1 to 4).
// Kept: C tells an event's number in a byte (`hk_pipe_event`), and any byte may come; `hearing::wire_of` makes a Wire of it.
pub const SETUP: u8 = 0;

pub const TAKEN: u8 = 1;

pub const RECEIVED: u8 = 2;

pub const RESET: u8 = 3;

pub const REPLY: u8 = 4;

pub const ROOM: u8 = 5;

pub const ACCEPT: u8 = 6;

pub const REFUSE: u8 = 7;
