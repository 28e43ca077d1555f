//! A saved table comes back as a predicate, and saves as the same bytes.
#![tactic(auto)]

mod again;
mod laws;

pub use again::{Unreturned, save_again};
pub use laws::laws_of_loaded;

#[cfg(test)]
mod tests;
