// The published words of the page code.
#![tactic(auto)]

pub mod laws;
