//! Reading a claim's text as a formula in prefix notation, and the steps that build it.
#![tactic(auto)]

mod flaw;
mod grammar;
mod laws;
mod limits;
mod plan;
mod planning;
mod source;
mod step;

pub use flaw::{Flaw, Flawed};
pub use laws::laws_of_texts;
pub use planning::plan_text;
pub use step::{Build, Spot, Step};

#[cfg(test)]
mod tests;
