//! Reading a claim's text into a table on a tray, by the tray's calls.
#![tactic(auto)]

mod building;
mod fault;
mod laws;
mod reading;

pub use fault::{Fault, Reason};
pub use laws::{laws_of_meaning, laws_of_reading};
pub use reading::read;

#[cfg(test)]
mod tests;
