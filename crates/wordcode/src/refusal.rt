// Why calls on words refuse.
ghost use Rattle.std.specs.Prelude.{◌≡◌};
ghost use Rattle.wordcode.specs.Refusals.{number_of};

use thiserror::Error;

#[derive(Clone, Copy, PartialEq, Eq, Debug, Error)]
pub enum Refusal {
    // The bytes handed over, or the buffer to fill, are not as many as hold the bits.
    #[error("the bytes are not as many as hold the bits")]
    WrongLength,
    // A spare bit behind the last one is set.
    #[error("a spare bit is set")]
    SpareBits,
    // No rule of reading gives a codeword.
    #[error("no codeword is near enough")]
    Unreadable,
}

// The number that callers are told.
impl From<Refusal> for u8 {
    ghost from_gives = { λ refusal number. number ≡ number_of refusal };

    fn from(refusal: Refusal) -> u8 {
        match refusal {
            Refusal::WrongLength => 2,
            Refusal::SpareBits => 7,
            Refusal::Unreadable => 8,
        }
    }
}
