// The types of descriptors, as USB 2.0's table 9-5 and USB 3.2's table 9-6 name them.
// Kept: numbers and no enum, since a descriptor of any other type may stand in a body and is stepped over.
pub const DEVICE: u8 = 1;

pub const CONFIGURATION: u8 = 2;

pub const STRING: u8 = 3;

pub const INTERFACE: u8 = 4;

pub const ENDPOINT: u8 = 5;

pub const DEVICE_QUALIFIER: u8 = 6;

pub const OTHER_SPEED_CONFIGURATION: u8 = 7;

pub const BOS: u8 = 15;

pub const SUPERSPEED_ENDPOINT_COMPANION: u8 = 48;

// No walk looks at a type from here on: class descriptors, and companions.
pub const CLASS: u8 = 8;
