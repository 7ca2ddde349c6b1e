// BCH codes: check bits, and the codeword at most t bits away.
#![tactic(auto)]

mod code;
mod eliminate;
mod encode;
pub mod laws;
mod nearest;
mod remainders;
mod roots;
pub mod settings;
mod syndrome;

pub use code::Bch;

#[cfg(test)]
mod tests;
