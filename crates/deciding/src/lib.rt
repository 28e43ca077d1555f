//! Deciding a claim: from the bytes of a question to the bytes of the answer.
#![tactic(auto)]

mod answer;
mod deciding;
mod laws;
mod printing;
mod question;

pub use answer::{Answer, Judged};
pub use deciding::{answer_to, decide};
pub use laws::laws_of_answers;
pub use printing::Lines;
pub use question::{MOST_ASKED, Question, Unread, read_question};

#[cfg(test)]
mod tests;
