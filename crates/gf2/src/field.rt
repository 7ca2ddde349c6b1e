// The five binary fields. An element is a number below 2^m, its bits the coefficients from x^(m-1) down to 1.
// Of a number that is no element only the low m bits count.
ghost use Rattle.std.specs.Prelude.{◌≡◌, ◌^◌, nat_lt};
ghost use Rattle.gf2.specs.Fields.{width as width_of, top, modulus_tail, element as element_of, sum as sum_in, alpha, product as product_in, power as power_in, inverse as inverse_in, IsInverse, IsFieldOfWidth};

use crate::modulus::Modulus;
use thiserror::Error;

// A field by the bits m of its elements.
#[derive(Clone, Copy, PartialEq, Eq, Debug)]
pub enum Field {
    Three,
    Five,
    Eight,
    Ten,
    Fourteen,
}

// The bits of an element that no field of the five has.
#[derive(Clone, Copy, PartialEq, Eq, Debug, Error)]
#[error("no field has elements of {0} bits")]
pub struct NoSuchField(pub u32);

// The field whose elements have that many bits.
impl TryFrom<u32> for Field {
    type Error = NoSuchField;

    ghost try_from_gives = { IsFieldOfWidth };

    fn try_from(m: u32) -> Result<Field, NoSuchField> {
        match m {
            3 => Ok(Field::Three),
            5 => Ok(Field::Five),
            8 => Ok(Field::Eight),
            10 => Ok(Field::Ten),
            14 => Ok(Field::Fourteen),
            _ => Err(NoSuchField(m)),
        }
    }
}

impl Field {
    // m, the bits of an element.
    pub fn width(self) -> u32
        ensures bits_of_an_element { result ≡ width_of self }
    {
        match self {
            Field::Three => 3,
            Field::Five => 5,
            Field::Eight => 8,
            Field::Ten => 10,
            Field::Fourteen => 14,
        }
    }

    // The polynomial that products are reduced by.
    pub fn modulus(self) -> Modulus
        ensures highest_exponent_of_an_element { result.top ≡ top self }
        ensures lower_terms_of_the_modulus { result.tail ≡ modulus_tail self }
    {
        // As a u16 the compiler reads it from a table; as a u128 it would jump at each step of a product.
        let tail: u16 = match self {
            Field::Three => 0b011,
            Field::Five => 0b0_0101,
            Field::Eight => 0b0001_1101,
            Field::Ten => 0b00_0000_1001,
            Field::Fourteen => 0b00_0100_0100_0011,
        };
        Modulus {
            top: self.width() - 1,
            tail: u128::from(tail),
        }
    }

    // Whether a is an element.
    pub fn contains(self, a: u16) -> bool
        ensures below_two_to_the_width { result ≡ nat_lt a (2 ^ width_of self) }
    {
        a >> self.width() == 0
    }

    // The element that a stands for, its low m bits.
    fn element(self, a: u16) -> u16
        ensures low_bits { result ≡ element_of self a }
    {
        a & ((1 << self.width()) - 1)
    }

    pub fn sum(self, a: u16, b: u16) -> u16
        ensures sum_of_the_elements { result ≡ sum_in self a b }
    {
        self.element(a ^ b)
    }

    // alpha times a.
    pub fn times_alpha(self, a: u16) -> u16
        ensures product_with_alpha { result ≡ product_in self alpha a }
    {
        self.modulus().times_x(u128::from(a)) as u16
    }

    pub fn product(self, a: u16, b: u16) -> u16
        ensures product_of_the_elements { result ≡ product_in self a b }
    {
        let element = self.element(a);
        let mut sum = 0;
        // The index is a shift amount, so a fold over the range reads no plainer.
        for i in (0..self.width()).rev() {
            sum = self.times_alpha(sum);
            if (b >> i) & 1 == 1 {
                sum = sum ^ element;
            }
        }
        sum
    }

    // a to the power given; the power 0 is 1, of 0 too.
    pub fn power(self, a: u16, exponent: u64) -> u16
        ensures product_of_that_many { result ≡ power_in self a exponent }
    {
        let mut result = 1;
        let mut square = a;
        let mut left = exponent;
        // The exponent is halved, which walks over no range.
        while left > 0 {
            if left % 2 == 1 {
                result = self.product(result, square);
            }
            square = self.product(square, square);
            left = left / 2;
        }
        result
    }

    // The element whose product with a is 1; none where a stands for 0.
    pub fn inverse(self, a: u16) -> Option<u16>
        ensures power_that_inverts { result ≡ inverse_in self a }
        ensures gives_one_with_the_element { IsInverse self a result }
    {
        if self.element(a) == 0 {
            None
        } else {
            Some(self.power(a, (1 << self.width()) - 2))
        }
    }
}
