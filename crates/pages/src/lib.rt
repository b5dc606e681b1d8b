// Devices of pages, numbers and bytes on them, and the store that is kept twice.
#![tactic(auto)]

pub mod bytes;
pub mod deed;
pub mod heads;
pub mod hex;
pub mod journal;
pub mod side;
pub mod stands;
pub mod waking;
pub mod words;

// A page of a device.
pub type Page = [u8; 512];
