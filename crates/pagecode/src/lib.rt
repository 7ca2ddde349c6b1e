// The page code: words with check bits that are no linear function of the message.
#![tactic(auto)]

pub mod laws;
pub mod message;
pub mod nonlinear;
#[cfg(test)]
mod tests;
