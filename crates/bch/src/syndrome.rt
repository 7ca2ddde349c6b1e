// The values of a polynomial at the powers of alpha.
ghost use Rattle.std.specs.Prelude.{◌≡◌, ℕ, ◌+◌, ◌≤◌};
ghost use Rattle.gf2.specs.Fields.{alpha, product, power};
ghost use Rattle.gf2.specs.Words.{bits_of};
ghost use Rattle.bch.specs.Code.{syndrome as syndrome_of};
ghost use Rattle.bch.specs.Elimination.{sequence};
ghost use Rattle.bch.specs.Settings.{field, errors, check_bits};

use crate::code::Bch;
use crate::eliminate::Sequence;
use gf2::field::Field;
use std::array;

// alpha^k times a.
pub(crate) fn times_power(field: Field, a: u16, k: usize) -> u16
    ensures product_with_that_power { result ≡ product field (power field alpha k) a }
{
    let mut moved = field.sum(a, 0);
    for _ in 0..k {
        moved = field.times_alpha(moved);
    }
    moved
}

impl Bch {
    // The polynomial of the check bits that a number is at alpha^j.
    fn syndrome(self, number: u128, j: usize) -> u16
        ensures value_at_that_power { result ≡ syndrome_of (field self) (bits_of (check_bits self) number) j }
    {
        let field = self.field();
        let mut sum = 0;
        // The place is a shift amount, so a fold over the range reads no plainer.
        for place in (0..self.degree()).rev() {
            sum = times_power(field, sum, j);
            if (number >> place) & 1 == 1 {
                sum ^= 1;
            }
        }
        sum
    }

    // The syndrome j, if it is at most 2t: against those above, every coefficient of the polynomials is 0, so they need not be known.
    fn wanted_syndrome(self, number: u128, j: usize) -> u16
        ensures up_to_twice_t { j ≤ errors self + errors self → result ≡ syndrome_of (field self) (bits_of (check_bits self) number) j }
    {
        if j > 2 * self.errors() {
            return 0;
        }
        self.syndrome(number, j)
    }

    // The syndromes 0 to 2t, each at its own index.
    pub(crate) fn syndromes(self, number: u128) -> Sequence
        ensures in_the_field { result.field ≡ field self }
        ensures up_to_twice_t { (j : ℕ) → j ≤ errors self + errors self → sequence result.members j ≡ syndrome_of (field self) (bits_of (check_bits self) number) j }
    {
        Sequence {
            field: self.field(),
            members: array::from_fn(|j| self.wanted_syndrome(number, j)),
        }
    }
}
