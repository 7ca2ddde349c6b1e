// The steps of encode as text.
#![tactic(auto)]

pub mod explain;
mod show;
