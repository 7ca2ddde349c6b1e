// The inner code of a setting: k1 data bits, r1 check bits behind them, t wrong bits corrected, and r2, the number of nonlinear bits of a word over it.
ghost use Rattle.std.specs.Prelude.{◌≡◌, ℕ, ◌+◌, Bool, List, is_ok};
ghost use Rattle.gf2.specs.declared.field.Field.{Field as FieldOf};
ghost use Rattle.gf2.specs.Words.{bits};
ghost use Rattle.inner.specs.Code.{IsInnerCode, Setting};
ghost use Rattle.inner.specs.Checks.{room_for_checks, with_checks};
ghost use Rattle.inner.specs.Nearest.{Nearest};

use gf2::bits::NoRoom;
use gf2::field::Field;

pub trait InnerCode {
    // k1, the data bits.
    const DATA: usize;

    // r1, the check bits.
    const CHECKS: usize;

    // t: as many wrong bits are corrected.
    const ERRORS: usize;

    // r2, the nonlinear bits of a word.
    const TAIL: usize;

    // The field of 2^r2 elements.
    const FIELD: Field;

    ghost DATA: { ℕ };

    ghost CHECKS: { ℕ };

    ghost ERRORS: { ℕ };

    ghost TAIL: { ℕ };

    ghost FIELD: { FieldOf };

    // Whether a word is a codeword, and the check bits of k1 data bits.
    ghost codeword: { List Bool → Type 0 };

    ghost checks: { List Bool → List Bool };

    ghost laws: { IsInnerCode DATA CHECKS ERRORS codeword checks };

    ghost setting: { Setting DATA CHECKS ERRORS TAIL FIELD };

    // Writes the check bits of the first k1 bits behind them, so that a codeword comes first. Where there are too few bits, nothing changes.
    fn complete(word: &mut [u8]) -> Result<(), NoRoom>
        ensures accepts_bits_enough_for_a_codeword { is_ok result ≡ room_for_checks DATA CHECKS (bits word.old) }
        ensures check_bits_follow_the_data { bits word.new ≡ with_checks DATA CHECKS checks (bits word.old) };

    // Corrects the first k1 + r1 bits to the codeword at most t bits away, and answers how many bits that flipped. None, and nothing changes,
    // exactly if there is no such codeword or there are too few bits.
    fn nearest(word: &mut [u8]) -> Option<usize>
        ensures the_codeword_at_most_t_bits_away_or_none { Nearest (DATA + CHECKS) ERRORS codeword (bits word.old) (bits word.new) result };
}
