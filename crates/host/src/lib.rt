// A house on two files of pages: the acts of the machine carried out, for the programs that keep one.
#![tactic(auto)]

pub mod files;
pub mod house;
pub mod machine;
pub mod parts;
pub mod spell;
#[cfg(test)]
mod tests;
