// The steps of encode for one message.
ghost use Rattle.std.specs.Prelude.{◌≡◌, ◌↔◌, ◌+◌, ◌*◌, ◌/◌, ◌%◌, ◌^◌, ◌<◌, ◌≤◌, length, take, drop, Some, None, IfSome, IsSome};
ghost use Rattle.std.specs.Fmt.{WritesOnOk};
ghost use Rattle.gf2.specs.Words.{bits, bits_of};
ghost use Rattle.gf2.specs.Fields.{width as width_of};
ghost use Rattle.pagecode.specs.Groups.{f};
ghost use Rattle.steps.specs.Shown.{Explained, HasSteps, group_at, product_line, explained_text, parts_text, groups_text, products_text, sum_text};

use crate::show::{Bits, Element, character};
use gf2::field::Field;
use pagecode::message::with_added;
use pagecode::nonlinear::f_over;
use std::fmt;
use std::marker::Model;

#[derive(Drop)]
pub struct Steps<'a> {
    field: Field,
    message: Bits<'a>,
    v_k: Bits<'a>,
    v: Option<Bits<'a>>,
    sum: u16,
}

impl<'a> Model for Steps<'a> {
    ghost Value = { Explained };

    ghost view = { λ s. record { field = s.field; message = s.message; v_k = s.v_k; v = s.v } };

    ghost invariant = { λ s. (length s.v_k < 2 ^ 64) × (length s.v_k % (2 * width_of s.field) ≡ 0) × (s.sum ≡ f s.field s.v_k) };
}

impl<'a> Steps<'a> {
    // The steps for a message of `count` + 1 bits whose v_k is the first `count` bits of `v_k`; none where there are fewer or they are no run of pairs of groups.
    pub fn of(field: Field, message: &'a [u8], v_k: &'a [u8], count: usize) -> Option<Self>
        ensures where_it_has_steps { IsSome result ↔ HasSteps field message.now v_k.now count }
        ensures steps_of_that_message { IfSome result (λ e. e ≡ record { field = field; message = take (count + 1) (bits message.now); v_k = take count (bits v_k.now); v = None }) }
    {
        let sum = f_over(field, v_k, count).ok()?;
        Some(Steps {
            field,
            message: Bits::of(message, count.checked_add(1)?)?,
            v_k: Bits::of(v_k, count)?,
            v: None,
            sum,
        })
    }

    // The same with the inner codeword v among them, which begins with v_k: the first `inner_bits` bits of `v`.
    pub fn with_v(
        field: Field,
        message: &'a [u8],
        v: &'a [u8],
        count: usize,
        inner_bits: usize,
    ) -> Option<Self>
        ensures where_it_has_steps_and_v_its_bits { IsSome result ↔ (HasSteps field message.now v.now count × inner_bits ≤ length (bits v.now)) }
        ensures steps_of_that_message { IfSome result (λ e. e ≡ record { field = field; message = take (count + 1) (bits message.now); v_k = take count (bits v.now); v = Some (take inner_bits (bits v.now)) }) }
    {
        let steps = Steps::of(field, message, v, count)?;
        let v = Bits::of(v, inner_bits)?;
        Some(Steps {
            v: Some(v),
            ..steps
        })
    }

    // The group with that number, counted from 0.
    fn group(&self, index: usize) -> u16
        requires within { (index + 1) * width_of self.now.field ≤ length self.now.v_k }
        ensures the_number_of_its_bits { result ≡ group_at self.now index }
    {
        let width = self.field.width();
        self.v_k.number(index * width as usize, width)
    }

    fn write_parts<W: fmt::Write>(&self, f: &mut fmt::Formatter<W>) -> fmt::Result
        ensures the_message_and_its_parts { WritesOnOk W.write_str_gives f.old result (parts_text self.now) f.new }
    {
        writeln!(f, "message {}", self.message)?;
        writeln!(f, "u {}", character(self.message.first()))?;
        writeln!(f, "v_k {}", self.v_k)?;
        match &self.v {
            Some(v) => writeln!(f, "v {v}"),
            None => Ok(()),
        }
    }

    #[tactic(auto, unfolding(pagecode::specs::Groups::groups))]
    fn write_groups<W: fmt::Write>(&self, f: &mut fmt::Formatter<W>) -> fmt::Result
        ensures every_group { WritesOnOk W.write_str_gives f.old result (groups_text self.now) f.new }
    {
        f.write_str("groups")?;
        // Each write may fail, and ends this by `?`: a chain reads no plainer.
        for index in 0..self.v_k.len() / self.field.width() as usize {
            write!(f, " {}", Element::of(self.field, self.group(index)))?;
        }
        f.write_str("\n")
    }

    fn write_product<W: fmt::Write>(&self, pair: usize, f: &mut fmt::Formatter<W>) -> fmt::Result
        requires within { (2 * pair + 2) * width_of self.now.field ≤ length self.now.v_k }
        ensures that_product { WritesOnOk W.write_str_gives f.old result (product_line self.now.field (group_at self.now (2 * pair)) (group_at self.now (2 * pair + 1))) f.new }
    {
        let field = self.field;
        let a = self.group(2 * pair);
        let b = self.group(2 * pair + 1);
        let left = Element::of(field, a);
        let right = Element::of(field, b);
        let product = Element::of(field, field.product(a, b));
        writeln!(f, "{left} * {right} = {product}")
    }

    #[tactic(auto, unfolding(pagecode::specs::Groups::groups, crate::specs::Shown::products_of))]
    fn write_products<W: fmt::Write>(&self, f: &mut fmt::Formatter<W>) -> fmt::Result
        ensures every_product { WritesOnOk W.write_str_gives f.old result (products_text self.now) f.new }
    {
        // As for the groups.
        for pair in 0..self.v_k.len() / (2 * self.field.width() as usize) {
            self.write_product(pair, f)?;
        }
        Ok(())
    }

    fn write_sum<W: fmt::Write>(&self, f: &mut fmt::Formatter<W>) -> fmt::Result
        ensures f_and_f_with_u { WritesOnOk W.write_str_gives f.old result (sum_text self.now) f.new }
    {
        writeln!(f, "f {}", Element::of(self.field, self.sum))?;
        let last = with_added(self.field, self.sum, self.message.first());
        write!(f, "f with u added {}", Element::of(self.field, last))
    }
}

impl fmt::Display for Steps<'_> {
    ghost output = { λ e. Some (explained_text e) };

    fn fmt<W: fmt::Write>(&self, f: &mut fmt::Formatter<W>) -> fmt::Result {
        self.write_parts(f)?;
        self.write_groups(f)?;
        self.write_products(f)?;
        self.write_sum(f)
    }
}
