// The laws of the codes, on a function whose contract they are: without their proof the crate fails.
ghost use Rattle.inner.specs.Code.{IsInnerCode as IsInnerCodeOf};
ghost use Rattle.bch.specs.declared.code.Bch.{Bch};
ghost use Rattle.bch.specs.InnerLaws.{WordOf, IsInnerCode};
ghost use Rattle.bch.specs.Settings.{data_bits, check_bits, errors, checks};

pub fn laws_of_the_codes()
    ensures each_is_an_inner_code { (C : Bch) → IsInnerCode C }
    ensures each_meets_the_laws_of_the_trait { (C : Bch) → IsInnerCodeOf (data_bits C) (check_bits C) (errors C) (WordOf C) (checks C) }
{}
