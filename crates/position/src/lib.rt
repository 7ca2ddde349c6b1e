// The position code: every bit has a label of its own, and the labels of a codeword's set bits add to zero.
#![tactic(auto)]

pub mod code;
mod labels;
pub mod laws;
#[cfg(test)]
mod tests;
