// Inner codes: linear codes that correct a few wrong bits, by one trait with their laws.
#![tactic(auto)]

pub mod code;
