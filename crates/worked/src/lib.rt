//! Worked examples: what the rules alone say of eight claims.
#![tactic(auto)]

mod laws;

pub use laws::laws_of_rows;
