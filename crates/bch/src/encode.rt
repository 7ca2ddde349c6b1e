// The check bits: the remainder of the data's polynomial times x^r1 by the generator.
ghost use Rattle.std.specs.Prelude.{◌≡◌, ◌^◌, ◌<◌, ◌≤◌, ◌++◌, length, take, IfSome, is_ok};
ghost use Rattle.gf2.specs.Words.{bits, bits_of};
ghost use Rattle.inner.specs.Checks.{room_for_checks, with_checks};
ghost use Rattle.bch.specs.Checks.{remainder as remainder_from, RemaindersOfBytes};
ghost use Rattle.bch.specs.InnerLaws.{WordOf};
ghost use Rattle.bch.specs.Settings.{data_bits, check_bits, generator_top, generator_tail, checks_number, checks_of_first, checks, rest_of_first};

use crate::code::Bch;
use gf2::bits::{NoRoom, holds, is_set, put_number, wide_number};

impl Bch {
    // Brings a byte into the register. The byte and the bits that leave the register at its top count alike, so one entry of the table serves both.
    fn next_byte(self, table: &[u128; 256], register: u128, byte: u8) -> u128
        requires remainders { RemaindersOfBytes (generator_top self) (generator_tail self) table.now }
        requires reduced { register < 2 ^ check_bits self }
        ensures eight_bits_on { result ≡ remainder_from (generator_top self) (generator_tail self) register (bits_of 8 byte) }
    {
        let keep = self.degree() - 8;
        let at = (((register >> keep) ^ u128::from(byte)) & 0xff) as usize;
        ((register & ((1 << keep) - 1)) << 8) ^ table[at]
    }

    // The remainder for the first `count` bits.
    fn remainder(self, bytes: &[u8], count: usize) -> u128
        requires enough { count ≤ length (bits bytes.now) }
        ensures of_those_bits { result ≡ checks_number self (take count (bits bytes.now)) }
    {
        let generator = self.generator();
        let table = self.remainders();
        let mut register = 0;
        for byte in &bytes[..count / 8] {
            register = self.next_byte(table, register, *byte);
        }
        // A step has two parts, so a fold over the places that are left reads no plainer.
        for skip in count / 8 * 8..count {
            register = generator.times_x(register);
            if is_set(bytes, skip) {
                register ^= generator.tail;
            }
        }
        register
    }

    // The check bits of the data bits that come first, as one number whose highest bit is the first; none where there are fewer data bits.
    pub fn check_bits(self, bytes: &[u8]) -> Option<u128>
        ensures remainder_by_the_generator { result ≡ checks_of_first self (bits bytes.now) }
        ensures complete_a_codeword { IfSome result (λ checks. WordOf self (take (data_bits self) (bits bytes.now) ++ bits_of (check_bits self) checks)) }
    {
        let count = self.data_bits();
        if !holds(bytes, count) {
            return None;
        }
        Some(self.remainder(bytes, count))
    }

    // The check bits that the data bits ask for, added to those that stand behind them: 0 for a codeword alone. None where there are too few bits.
    pub(crate) fn rest(self, word: &[u8]) -> Option<u128>
        ensures checks_asked_for_and_found { result ≡ rest_of_first self (bits word.now) }
    {
        // Read first, since a word without all of them needs no division.
        let found = wide_number(word, self.data_bits(), self.degree())?;
        let asked = self.check_bits(word)?;
        Some(asked ^ found)
    }

    // Writes the check bits of the data bits behind them, so that a codeword comes first. Where there are too few bits, nothing changes.
    pub fn complete(self, word: &mut [u8]) -> Result<(), NoRoom>
        ensures accepts_bits_enough_for_a_codeword { is_ok result ≡ room_for_checks (data_bits self) (check_bits self) (bits word.old) }
        ensures check_bits_follow_the_data { bits word.new ≡ with_checks (data_bits self) (check_bits self) (checks self) (bits word.old) }
    {
        // A short word is refused before any division.
        if !holds(word, self.word_bits()) {
            return Err(NoRoom);
        }
        let checks = self.remainder(word, self.data_bits());
        put_number(word, self.data_bits(), self.degree(), checks)
    }
}
