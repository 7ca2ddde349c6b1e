// Flipping the bits of a word at the common roots.
ghost use Rattle.std.specs.Prelude.{◌≡◌, ℕ, ◌<◌, ◌≤◌, [], bit_xor, fold, length, nat_eq, slice_index_or};
ghost use Rattle.std.specs.List.{list_all};
ghost use Rattle.gf2.specs.Words.{bits, add, weight};
ghost use Rattle.gf2.specs.Fields.{alpha, product, power};
ghost use Rattle.bch.specs.Elimination.{sequence};
ghost use Rattle.bch.specs.Decoding.{all_vanish, root_marks, running_value, TermsAt};
ghost use Rattle.bch.specs.Settings.{field as field_of, word_bits};

use crate::code::Bch;
use crate::eliminate::{Polynomial, Survivors};
use crate::syndrome::times_power;
use gf2::bits::{is_set, put};
use gf2::field::Field;
use std::array;

// The polynomial at y, from its highest coefficient down.
fn value_at(field: Field, poly: &Polynomial, y: u16) -> u16
    ensures value_there { result ≡ running_value field y poly.now }
{
    poly.iter()
        .rev()
        .fold(0, |value, c| field.sum(field.product(value, y), *c))
}

// Whether all the polynomials are 0 at y.
fn vanish_at(field: Field, polys: &[Polynomial], y: u16) -> bool
    ensures all_are_0_there { result ≡ list_all (λ p. nat_eq (running_value field y p) 0) polys.now }
{
    polys.iter().all(|poly| value_at(field, poly, y) == 0)
}

// The terms of a polynomial at a point, which move from point to point without a product.
#[derive(Clone, Copy)]
struct Terms {
    field: Field,
    point: u16,
    values: [u16; 6],
}

impl Terms {
    fn at_one(field: Field, poly: &Polynomial) -> Terms
        ensures in_the_field { result.field ≡ field }
        ensures the_first_point { result.point ≡ 1 }
        ensures its_terms { TermsAt field poly.now 1 result.values }
    {
        Terms {
            field,
            point: 1,
            values: array::from_fn(|k| field.product(poly[k], 1)),
        }
    }

    // The terms at alpha times the point.
    fn next(&self) -> Terms
        ensures in_the_field { result.field ≡ self.now.field }
        ensures the_next_point { result.point ≡ product self.now.field alpha self.now.point }
        ensures each_by_its_power_of_alpha { (k : ℕ) → k < 6 → sequence result.values k ≡ product self.now.field (power self.now.field alpha k) (sequence self.now.values k) }
    {
        Terms {
            field: self.field,
            point: self.field.times_alpha(self.point),
            values: array::from_fn(|k| times_power(self.field, self.values[k], k)),
        }
    }

    // The polynomial's value.
    fn total(&self) -> u16
        ensures sum_of_all { result ≡ fold bit_xor 0 self.now.values }
    {
        self.values.iter().fold(0, |sum, term| sum ^ *term)
    }
}

impl Survivors {
    // Whether all of them are 0 at a point, by the terms of the first of them there: mostly it is not 0, and they tell that at once.
    fn vanish(&self, first: &Terms) -> bool
        requires terms_of_the_first { TermsAt first.now.field (slice_index_or self.now.polys.items 0 []) first.now.point first.now.values }
        ensures all_are_0_there { result ≡ all_vanish (product first.now.field) self.now.polys.items first.now.point }
    {
        first.total() == 0 && vanish_at(first.field, &self.polys, first.point)
    }
}

impl Bch {
    // Flips each of the code's bits at whose point all the polynomials are 0, and answers how many those are.
    pub(crate) fn flip_roots(self, left: &Survivors, bytes: &mut [u8]) -> usize
        requires enough { word_bits self ≤ length (bits bytes.old) }
        ensures counts_the_roots { result ≡ weight (root_marks (field_of self) left.now.polys.items (word_bits self)) }
        ensures flips_the_roots { bits bytes.new ≡ add (bits bytes.old) (root_marks (field_of self) left.now.polys.items (word_bits self)) }
    {
        let mut first = Terms::at_one(self.field(), &left.polys[0]);
        let mut flips = 0;
        // From the last bit on, whose point is 1. The word changes on the way, so this is no chain.
        for skip in (0..self.word_bits()).rev() {
            if left.vanish(&first) {
                put(bytes, skip, !is_set(bytes, skip));
                flips += 1;
            }
            first = first.next();
        }
        flips
    }
}
