// Theorems of the page code, each on a function whose contract it is: without its proof the crate fails.
ghost use Rattle.gf2.specs.declared.field.Field.{Field};
ghost use Rattle.pagecode.specs.GroupLaws.{SumOverPairs};

pub fn laws_of_f()
    ensures f_is_the_sum_over_the_pairs_of_groups { (F : Field) → SumOverPairs F }
{}
