// Commands, how they are spelled, and what is kept of people and events.
#![tactic(auto)]

pub mod command;
mod field;
pub mod people;
pub mod place;
pub mod read;
pub mod sheets;
pub mod stands;
pub mod write;
