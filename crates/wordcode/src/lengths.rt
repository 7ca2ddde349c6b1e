// The first thing that every call looks at.
ghost use Rattle.std.specs.Prelude.{◌≡◌, length, if◌then◌else◌, Ok, Err, ◌==◌};
ghost use Rattle.wordcode.specs.Refusals.{told};

use crate::refusal::Refusal;

// Whether there are as many bytes as the call takes and as it fills.
pub(crate) fn check_lengths(
    source: &[u8],
    takes: usize,
    buffer: &[u8],
    fills: usize,
) -> Result<(), Refusal>
    ensures refuses_another_length { told result ≡ (if length source.now == takes then (if length buffer.now == fills then Ok tt else Err 2) else Err 2) }
{
    if source.len() != takes || buffer.len() != fills {
        return Err(Refusal::WrongLength);
    }
    Ok(())
}
