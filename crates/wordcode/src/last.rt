// The last r2 bits of a codeword.
ghost use Rattle.std.specs.Prelude.{◌≡◌, ◌+◌, ◌^◌, ◌<◌, ◌≤◌, length, take, drop};
ghost use Rattle.gf2.specs.Words.{bits, bits_of, add, weight};
ghost use Rattle.gf2.specs.Fields.{width as width_of};
ghost use Rattle.pagecode.specs.InnerData.{each};
ghost use Rattle.wordcode.specs.Codeword.{f_bits};

use crate::runs::Buffer;
use gf2::bits::number;
use gf2::field::Field;
use inner::code::InnerCode;
use pagecode::message::with_added;
use pagecode::nonlinear::f_over;

// The last bits of the codeword with that u whose inner codeword begins with the first bits of `inner`.
pub(crate) fn last_bits<C: InnerCode>(inner: &Buffer, u: bool) -> u16
    ensures f_with_u_added { bits_of (width_of C.FIELD) result ≡ each u (f_bits C.FIELD (take C.DATA (bits inner.now))) }
    ensures an_element { result < 2 ^ width_of C.FIELD }
{
    let f = f_over(C::FIELD, inner, C::DATA).unwrap_or(0);
    with_added(C::FIELD, f, u)
}

// How many of the bits behind the first `skip` differ from a codeword's last bits.
pub(crate) fn bits_apart(word: &[u8], skip: usize, field: Field, last: u16) -> usize
    requires word_has_them { skip + width_of field ≤ length (bits word.now) }
    requires an_element { last < 2 ^ width_of field }
    ensures differing_bits { result ≡ weight (add (take (width_of field) (drop skip (bits word.now))) (bits_of (width_of field) last)) }
    ensures no_more_than_16 { result ≤ 16 }
{
    let there = number(word, skip, field.width()).unwrap_or(0);
    (there ^ last).count_ones() as usize
}
