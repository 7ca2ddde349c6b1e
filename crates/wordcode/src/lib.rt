// The page code: words with check bits that are no linear function of the message.
#![tactic(auto)]

mod last;
pub mod laws;
mod lengths;
pub mod page;
pub mod refusal;
mod runs;
mod settle;
pub mod sizes;
pub mod word;
