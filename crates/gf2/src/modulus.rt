// Multiplication by x modulo a polynomial over the two elements 0 and 1. Bit i of a number is the coefficient of x^i.
ghost use Rattle.std.specs.Prelude.{◌≡◌, ◌<◌};
ghost use Rattle.gf2.specs.Product.{times_x};

// The polynomial x^(top+1) + tail.
#[derive(Clone, Copy, PartialEq, Eq, Debug)]
pub struct Modulus {
    pub top: u32,
    pub tail: u128,
    // The bits below x^(top+1) lie in 128 bits.
    ghost in_128_bits: { top < 128 },
}

impl Modulus {
    // x times the polynomial of the top + 1 low bits of a; higher bits do not count.
    pub fn times_x(self, a: u128) -> u128
        ensures moves_up_and_reduces { result ≡ times_x self.top self.tail a }
    {
        // Both outcomes are at hand before the test, so that it needs no jump.
        let low = (a & ((1 << self.top) - 1)) << 1;
        if (a >> self.top) & 1 == 1 {
            low ^ self.tail
        } else {
            low
        }
    }
}
