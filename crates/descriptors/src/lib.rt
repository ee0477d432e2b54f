// A configuration body: the words of what it is made of.
#![tactic(auto)]

pub mod check;
mod checked;
pub mod endpoints;
pub mod limits;
pub mod lookup;
pub mod sequence;
pub mod survey;
pub mod types;
pub mod walk;

// A configuration's place among the configurations, from 0 on: GET_DESCRIPTOR takes it.
#[derive(Clone, Copy)]
pub struct ConfigurationIndex(pub u8);

// A configuration's bConfigurationValue: SET_CONFIGURATION takes it.
#[derive(Clone, Copy)]
pub struct ConfigurationValue(pub u8);

// One setting of one interface.
#[derive(Clone, Copy)]
pub struct Setting {
    pub interface: u8,
    pub alternate: u8,
}

// An endpoint, and the setting that lists it.
#[derive(Clone, Copy)]
pub struct Endpoint {
    pub interface: u8,
    pub alternate: u8,
    pub address: u8,
    pub attributes: u8,
}
