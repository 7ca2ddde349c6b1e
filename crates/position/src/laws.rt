// The laws of the code, on a function whose contract they are: without their proof the crate fails.
ghost use Rattle.std.specs.Prelude.{◌≡◌, length};
ghost use Rattle.inner.specs.Code.{IsInnerCode};
ghost use Rattle.position.specs.Short.{data_labels, ShortCodeword, short_checks};

pub fn laws_of_the_code()
    ensures each_data_bit_has_a_label { length data_labels ≡ 544 }
    ensures it_is_an_inner_code { IsInnerCode 544 10 1 ShortCodeword short_checks }
{}
