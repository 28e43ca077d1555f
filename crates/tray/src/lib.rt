//! The tray of tables: the calls that build tables for formulas, and those that judge one and save it.
#![tactic(auto)]

mod asked;
mod control;
mod hide;
mod join;
mod judge;
mod laws;
mod opening;
mod place;
mod refusal;
mod save;
mod single;
mod top;
mod tray;

pub use control::Control;
pub use laws::{laws_of_formulas, laws_of_opening};
pub use refusal::Refusal;
pub use tray::Tray;

#[cfg(test)]
mod tests;
