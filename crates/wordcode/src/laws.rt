// Theorems of the page code, each on a function whose contract it is: without its proof the crate fails.
ghost use Rattle.wordcode.specs.WordLaws.{WordLaws};
ghost use Rattle.wordcode.specs.Flips.{FlipLaw};
ghost use Rattle.wordcode.specs.Page.{PageLaws};

use inner::code::InnerCode;

pub fn laws_of_words<C: InnerCode>()
    ensures codewords_are_apart_and_every_word_has_one_answer { WordLaws C.DATA C.CHECKS C.ERRORS C.FIELD C.checks }
{}

// Flips that pass unseen: a pattern of bits, added to a codeword, gives a codeword again.
pub fn which_flips_pass<C: InnerCode>()
    ensures one_pattern_passes_all_and_any_other_one_filling_of_a_group { FlipLaw C.DATA C.CHECKS C.FIELD C.checks }
{}

pub fn laws_of_pages<C: InnerCode>()
    ensures the_mark_is_the_least_that_ends_a_byte_and_pages_have_w_bytes { PageLaws C.DATA C.CHECKS C.ERRORS C.FIELD C.checks }
{}
