// A descriptor set: its contents, and whether it may be opened.
#![tactic(auto)]

pub mod capabilities;
pub mod configuration;
pub mod contents;
pub mod device;
pub mod opening;
pub mod string;

// One entry of the contents: what a body is, and where it lies.
#[derive(Clone, Copy, PartialEq, Eq)]
pub struct Entry {
    pub kind: u8,
    pub index: u8,
    pub language: u16,
    pub offset: u16,
    pub length: u16,
}
