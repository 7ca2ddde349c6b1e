// The inner code of the setting short.
ghost use Rattle.gf2.specs.declared.field.Field.TheVariants.{Eight};
ghost use Rattle.position.specs.Short.{ShortCodeword, short_checks};
ghost use Rattle.position.specs.Theory.ShortLaws.{short_inner_code, short_setting};

use crate::labels::{data_sum, place_of, word_sum};
use gf2::bits::{NoRoom, holds, is_set, put, put_number};
use gf2::field::Field;
use inner::code::InnerCode;

// 544 data bits and 10 check bits; one wrong bit is corrected.
pub struct Short;

impl InnerCode for Short {
    const DATA: usize = 544;

    const CHECKS: usize = 10;

    const ERRORS: usize = 1;

    const TAIL: usize = 8;

    const FIELD: Field = Field::Eight;

    ghost DATA = { 544 };

    ghost CHECKS = { 10 };

    ghost ERRORS = { 1 };

    ghost TAIL = { 8 };

    ghost FIELD = { Eight };

    ghost codeword = { ShortCodeword };

    ghost checks = { short_checks };

    ghost laws = { short_inner_code };

    ghost setting = { short_setting };

    // The check bits make the sum of the labels. A short word is refused before they are added.
    fn complete(word: &mut [u8]) -> Result<(), NoRoom> {
        if !holds(word, 554) {
            return Err(NoRoom);
        }
        put_number(word, 544, 10, u128::from(data_sum(word)))
    }

    fn nearest(word: &mut [u8]) -> Option<usize> {
        let sum = word_sum(word)?;
        if sum == 0 {
            return Some(0);
        }
        let place = place_of(sum)?;
        put(word, place, !is_set(word, place));
        Some(1)
    }
}
