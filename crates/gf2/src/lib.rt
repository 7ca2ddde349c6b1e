// Bits of bytes and the five binary fields: what the page code rests on.
#![tactic(auto)]

pub mod bits;
pub mod field;
pub mod laws;
pub mod modulus;
pub mod powers;
pub mod runs;
#[cfg(test)]
mod tests;
