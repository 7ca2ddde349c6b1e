// The parts of a message: a bit u and the bits behind it.
ghost use Rattle.std.specs.Prelude.{◌≡◌, ◌^◌, ◌<◌, is_ok};
ghost use Rattle.gf2.specs.Words.{bits, bits_of};
ghost use Rattle.gf2.specs.Fields.{width};
ghost use Rattle.pagecode.specs.InnerData.{each, data_fits, with_inner_data};

use gf2::bits::{NoRoom, is_set, put};
use gf2::field::Field;
use gf2::runs::copy_bits;

// Writes v_k, the `count` bits behind the message's first bit u with u added to the first of them, over the first bits of `out`.
// Where the lengths do not fit, nothing changes.
pub fn inner_data(message: &[u8], count: usize, out: &mut [u8]) -> Result<(), NoRoom>
    ensures accepts_lengths_that_fit { is_ok result ≡ data_fits (bits message.now) count (bits out.old) }
    ensures writes_v_k_over_the_first_bits { bits out.new ≡ with_inner_data (bits message.now) count (bits out.old) }
{
    copy_bits(message, 1, count, out, 0)?;
    if count > 0 {
        let sum = is_set(out, 0) != is_set(message, 0);
        put(out, 0, sum);
    }
    Ok(())
}

// The bits of f with u added to each.
pub fn with_added(field: Field, f: u16, u: bool) -> u16
    ensures u_added_to_each_bit { bits_of (width field) result ≡ each u (bits_of (width field) f) }
    ensures stays_an_element { result < 2 ^ width field }
{
    let each = if u { u16::MAX } else { 0 };
    field.sum(f, each)
}
