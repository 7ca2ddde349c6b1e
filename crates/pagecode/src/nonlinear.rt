// The nonlinear bits of a word: the sum of the products of neighbouring groups.
ghost use Rattle.std.specs.Prelude.{◌≡◌, ◌+◌, ◌*◌, ◌^◌, ◌<◌, Some};
ghost use Rattle.gf2.specs.Words.{bits};
ghost use Rattle.gf2.specs.Fields.{width as width_of};
ghost use Rattle.pagecode.specs.Groups.{f_over as f_of_bits, f_of_first, product_behind};

use gf2::bits::number;
use gf2::field::{Field, NoSuchField};
use thiserror::Error;

// Why a run of bits has no f.
#[derive(Clone, Copy, PartialEq, Eq, Debug, Error)]
pub enum Misfit {
    // No field of the five has elements of that many bits.
    #[error("no field has elements of that many bits")]
    NoField,
    // The run is no multiple of two groups, or the bytes end before it.
    #[error("the number of bits does not fit")]
    Length,
}

impl From<NoSuchField> for Misfit {
    ghost use Rattle.pagecode.specs.declared.nonlinear.Misfit.TheVariants.{NoField};

    ghost from_gives = { λ _ misfit. misfit ≡ NoField };

    fn from(_: NoSuchField) -> Misfit {
        Misfit::NoField
    }
}

// The product of the two groups behind the first `skip` bits; none where the bytes end before.
fn pair_product(field: Field, bytes: &[u8], skip: usize) -> Option<u16>
    requires fits { skip + 2 * width_of field < 2 ^ 64 }
    ensures product_of_the_next_two { result ≡ product_behind field (bits bytes.now) skip }
{
    let width = field.width();
    let a = number(bytes, skip, width)?;
    let b = number(bytes, skip + width as usize, width)?;
    Some(field.product(a, b))
}

// f of the first `count` bits, cut into groups that are elements of the field: its bits are the low ones of the answer, the first the highest.
pub fn f_over(field: Field, bytes: &[u8], count: usize) -> Result<u16, Misfit>
    ensures f_of_the_first_bits_or_no_such_length { result ≡ f_of_bits (Some field) (bits bytes.now) count }
{
    let two_groups = 2 * field.width() as usize;
    if count % two_groups != 0 {
        return Err(Misfit::Length);
    }
    let mut sum = 0;
    // A try_fold over the range reads no plainer, since its closure would hold the `?` and wrap each sum in Ok.
    for pair in 0..count / two_groups {
        let product = pair_product(field, bytes, pair * two_groups).ok_or(Misfit::Length)?;
        sum = field.sum(sum, product);
    }
    Ok(sum)
}

// The same over the field whose elements have `width` bits.
pub fn nonlinear_bits(bytes: &[u8], count: usize, width: u32) -> Result<u16, Misfit>
    ensures f_of_the_first_bits_or_what_does_not_fit { result ≡ f_of_first (bits bytes.now) count width }
{
    f_over(Field::try_from(width)?, bytes, count)
}
