// Events by value, on which days they fall, and on which of those they occur.
#![tactic(auto)]

pub mod c;
pub mod event;
pub mod occurrence;
pub mod rule;
#[cfg(test)]
mod tests;
mod weekly;
