// Theorems that hold of bits and fields, each on a function whose contract it is: without its proof the crate fails.
ghost use Rattle.std.specs.Prelude.{ℕ, suc, ◌^◌, ◌<◌};
ghost use Rattle.gf2.specs.declared.field.Field.{Field};
ghost use Rattle.gf2.specs.Product.{times};
ghost use Rattle.gf2.specs.Fields.{width, product, IsPolynomialProduct, IsField, AlphaGenerates};
ghost use Rattle.gf2.specs.Polynomials.{Vandermonde, FewRoots};
ghost use Rattle.gf2.specs.WordLaws.{BitsOfBytes, Flipping, DistanceIsAMetric, WordsAreNumbers};

pub fn laws_of_words()
    ensures bytes_hold_eight_bits_in_their_order { BitsOfBytes }
    ensures flipping_changes_that_bit_alone_and_twice_nothing { Flipping }
    ensures distance_is_a_metric { DistanceIsAMetric }
    ensures words_are_numbers { WordsAreNumbers }
{}

// The product of polynomials modulo x^(n+1) + p, for every n and p.
pub fn laws_of_the_product()
    ensures it_is_the_product_of_polynomials { (n p : ℕ) → p < 2 ^ suc n → IsPolynomialProduct n p (times n p) }
{}

pub fn laws_of_the_five_fields()
    ensures each_is_a_field { (F : Field) → IsField (width F) (product F) }
    ensures alpha_runs_through_every_element_but_0 { (F : Field) → AlphaGenerates (width F) (product F) }
    ensures sums_of_powers_vanish_only_with_zero_coefficients { (F : Field) → Vandermonde (width F) (product F) }
    ensures a_polynomial_has_at_most_its_degree_of_roots { (F : Field) → FewRoots (width F) (product F) }
{}
