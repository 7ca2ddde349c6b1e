// The codes as inner codes, one for each setting. The two impls are constants and two calls each, since a generic impl would have to be told these too.
ghost use Rattle.gf2.specs.declared.field.Field.TheVariants.{Three, Ten};
ghost use Rattle.bch.specs.Codes.{WorkedCodeword, worked_checks, LongCodeword, long_checks};
ghost use Rattle.bch.specs.Theory.Laws.{worked_inner_code, worked_setting, long_inner_code, long_setting};

use crate::code::Bch;
use gf2::bits::NoRoom;
use gf2::field::Field;
use inner::code::InnerCode;

// 18 data bits and 10 check bits; 2 wrong bits are corrected.
pub struct Worked;

// 8,200 data bits and 70 check bits; 5 wrong bits are corrected.
pub struct Long;

impl InnerCode for Worked {
    const DATA: usize = 18;

    const CHECKS: usize = 10;

    const ERRORS: usize = 2;

    const TAIL: usize = 3;

    const FIELD: Field = Field::Three;

    ghost DATA = { 18 };

    ghost CHECKS = { 10 };

    ghost ERRORS = { 2 };

    ghost TAIL = { 3 };

    ghost FIELD = { Three };

    ghost codeword = { WorkedCodeword };

    ghost checks = { worked_checks };

    ghost laws = { worked_inner_code };

    ghost setting = { worked_setting };

    fn complete(word: &mut [u8]) -> Result<(), NoRoom> {
        Bch::Worked.complete(word)
    }

    fn nearest(word: &mut [u8]) -> Option<usize> {
        Bch::Worked.nearest(word)
    }
}

impl InnerCode for Long {
    const DATA: usize = 8200;

    const CHECKS: usize = 70;

    const ERRORS: usize = 5;

    const TAIL: usize = 10;

    const FIELD: Field = Field::Ten;

    ghost DATA = { 8200 };

    ghost CHECKS = { 70 };

    ghost ERRORS = { 5 };

    ghost TAIL = { 10 };

    ghost FIELD = { Ten };

    ghost codeword = { LongCodeword };

    ghost checks = { long_checks };

    ghost laws = { long_inner_code };

    ghost setting = { long_setting };

    fn complete(word: &mut [u8]) -> Result<(), NoRoom> {
        Bch::Long.complete(word)
    }

    fn nearest(word: &mut [u8]) -> Option<usize> {
        Bch::Long.nearest(word)
    }
}
