// The published words, on a function whose contract they are: without their proof the crate fails.
ghost use Rattle.std.specs.List.{AllByRecursion};
ghost use Rattle.published.specs.Table.{Holds, table};

pub fn published_words()
    ensures every_row_of_the_table_holds { AllByRecursion Holds table }
{}
