//! The tokens of a claim's text, and what a book makes of them.
#![tactic(auto)]

mod item;
mod letters;
mod listing;
mod mark;
mod token;

pub use item::{Item, Sense};
pub use listing::{LONGEST, list_items};
pub use mark::Mark;
pub use token::{NoToken, Part, Token, next_token};

#[cfg(test)]
mod tests;
