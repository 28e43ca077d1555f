//! Saved tables that come back: a draft takes them line by line, and is sealed as a loaded book.
#![tactic(auto)]

mod answering;
mod draft;
mod filling;
mod lines;
mod loaded;
mod reading;
mod seal;
mod unloaded;

pub use draft::Draft;
pub use lines::read_numbers;
pub use loaded::{Loaded, MOST_CELLS};
pub use reading::{Fault, cut, load};
pub use seal::Unsealed;
pub use unloaded::Unloaded;

#[cfg(test)]
mod tests;
