// Bits and elements as text of 0 and 1.
ghost use Rattle.std.specs.Prelude.{◌≡◌, ◌+◌, ◌-◌, ◌^◌, ◌<◌, ◌≤◌, ◌↔◌, Bool, List, [], ◌∷◌, Some, IsSome, IfSome, length, take, drop, slice_index_or, false};
ghost use Rattle.gf2.specs.Words.{bits, bits_of, number as number_of};
ghost use Rattle.gf2.specs.Fields.{width as width_of};
ghost use Rattle.steps.specs.Shown.{digit, digits};

use gf2::bits::{holds, is_set, number};
use gf2::field::Field;
use std::fmt;
use std::marker::Model;

pub(crate) fn character(bit: bool) -> &'static str
    ensures one_for_a_set_bit { result.now ≡ digit bit ∷ [] }
{
    if bit { "1" } else { "0" }
}

// The first bits of bytes.
#[derive(Drop)]
pub(crate) struct Bits<'a> {
    bytes: &'a [u8],
    count: usize,
}

impl<'a> Model for Bits<'a> {
    ghost Value = { List Bool };

    ghost view = { λ s. take s.count (bits s.bytes.now) };

    ghost invariant = { λ s. s.count ≤ length (bits s.bytes.now) };
}

impl<'a> Bits<'a> {
    // The first `count` bits; none where the bytes hold fewer.
    pub(crate) fn of(bytes: &'a [u8], count: usize) -> Option<Self>
        ensures where_the_bytes_hold_them { IsSome result ↔ (count ≤ length (bits bytes.now)) }
        ensures those_bits { IfSome result (λ shown. shown ≡ take count (bits bytes.now)) }
    {
        if holds(bytes, count) {
            Some(Bits { bytes, count })
        } else {
            None
        }
    }

    pub(crate) fn len(&self) -> usize
        ensures how_many { result ≡ length self.now }
    {
        self.count
    }

    pub(crate) fn first(&self) -> bool
        ensures the_first_or_false { result ≡ slice_index_or self.now 0 false }
    {
        self.count > 0 && is_set(self.bytes, 0)
    }

    // The number that `width` bits make, behind the first `skip`.
    pub(crate) fn number(&self, skip: usize, width: u32) -> u16
        requires has_them { skip + width ≤ length self.now }
        requires narrow { 0 < width × width ≤ 16 }
        ensures number_of_those { result ≡ number_of (take width (drop skip self.now)) }
    {
        number(self.bytes, skip, width).unwrap_or(0)
    }
}

impl fmt::Display for Bits<'_> {
    ghost output = { λ shown. Some (digits shown) };

    fn fmt<W: fmt::Write>(&self, f: &mut fmt::Formatter<W>) -> fmt::Result {
        // Each write may fail, and ends this by `?`: a chain reads no plainer.
        for done in 0..self.count {
            f.write_str(character(is_set(self.bytes, done)))?;
        }
        Ok(())
    }
}

// An element of a field.
#[derive(Drop)]
pub(crate) struct Element {
    field: Field,
    value: u16,
}

impl Model for Element {
    ghost Value = { List Bool };

    ghost view = { λ e. bits_of (width_of e.field) e.value };
}

impl Element {
    // The element that a number stands for.
    pub(crate) fn of(field: Field, value: u16) -> Self
        ensures its_bits { result ≡ bits_of (width_of field) value }
    {
        Element { field, value }
    }
}

impl fmt::Display for Element {
    ghost output = { λ shown. Some (digits shown) };

    fn fmt<W: fmt::Write>(&self, f: &mut fmt::Formatter<W>) -> fmt::Result {
        // The place is a shift amount; as for bits.
        for place in (0..self.field.width()).rev() {
            f.write_str(character((self.value >> place) % 2 == 1))?;
        }
        Ok(())
    }
}
