// The BCH codes in use.
ghost use Rattle.std.specs.Prelude.{◌≡◌};
ghost use Rattle.bch.specs.Settings.{field as field_of, errors as errors_of, word_bits as word_bits_of, data_bits as data_bits_of, check_bits as check_bits_of, generator_top, generator_tail};

use gf2::field::Field;
use gf2::modulus::Modulus;

// A code by its setting.
#[derive(Clone, Copy)]
pub enum Bch {
    // 18 data bits and 10 check bits over the field of 32 elements; 2 wrong bits are corrected.
    Worked,
    // 8,200 data bits and 70 check bits over the field of 16,384 elements; 5 wrong bits are corrected.
    Long,
}

impl Bch {
    pub(crate) fn field(self) -> Field
        ensures its_field { result ≡ field_of self }
    {
        match self {
            Bch::Worked => Field::Five,
            Bch::Long => Field::Fourteen,
        }
    }

    // t: as many wrong bits are corrected.
    pub fn errors(self) -> usize
        ensures wrong_bits_that_are_corrected { result ≡ errors_of self }
    {
        match self {
            Bch::Worked => 2,
            Bch::Long => 5,
        }
    }

    // The bits of a word.
    pub fn word_bits(self) -> usize
        ensures bits_of_a_word { result ≡ word_bits_of self }
    {
        match self {
            Bch::Worked => 28,
            Bch::Long => 8270,
        }
    }

    // The generator: x^r1 and its lower terms.
    pub(crate) fn generator(self) -> Modulus
        ensures one_less_than_the_degree { result.top ≡ generator_top self }
        ensures lower_terms { result.tail ≡ generator_tail self }
    {
        match self {
            Bch::Worked => Modulus {
                top: 9,
                tail: 0b11_0110_1001,
            },
            Bch::Long => Modulus {
                top: 69,
                tail: 0xE_8FD4_F615_5365_4087,
            },
        }
    }

    // r1, the check bits of a word and the generator's degree.
    pub(crate) fn degree(self) -> u32
        ensures check_bits_of_a_word { result ≡ check_bits_of self }
    {
        self.generator().top + 1
    }

    // k1, the data bits of a word.
    pub(crate) fn data_bits(self) -> usize
        ensures data_bits_of_a_word { result ≡ data_bits_of self }
    {
        self.word_bits() - self.degree() as usize
    }
}
