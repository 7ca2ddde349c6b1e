// Pages of the setting long for callers in C. A slice is a pointer and then a length, and the two of a call must not overlap; nothing checks what
// C passes. The answer is 0, or the number of the refusal.
#![tactic(auto)]

ghost use Rattle.std.specs.Prelude.{◌≡◌};
ghost use Rattle.gf2.specs.declared.field.Field.TheVariants.{Ten};
ghost use Rattle.bch.specs.Codes.{long_checks};
ghost use Rattle.wordcode.specs.Refusals.{told};
ghost use Rattle.wordcode.specs.Page.{page_of, page_checked, PageMade};
ghost use Rattle.cpages.specs.Answers.{answer_number, PageReadAs};

use bch::settings::Long;
use wordcode::page::{encode_page, read_page};
use wordcode::refusal::Refusal;

fn number_told<T: Drop>(outcome: Result<T, Refusal>) -> u8
    ensures number_of_the_refusal_or_0 { result ≡ answer_number (told outcome) }
{
    match outcome {
        Ok(_) => 0,
        Err(refusal) => refusal.into(),
    }
}

#[unsafe(no_mangle)]
pub extern "C" fn fadedopal_long_encode_page(bytes: &[u8], page: &mut [u8]) -> u8
    ensures number_of_the_refusal_or_0 { result ≡ answer_number (page_checked 8200 70 5 10 bytes.now page.old) }
    ensures writes_the_page_or_nothing { PageMade (page_checked 8200 70 5 10 bytes.now page.old) (page_of 8200 70 5 Ten long_checks bytes.now) page.old page.new }
{
    number_told(encode_page::<Long>(bytes, page))
}

#[unsafe(no_mangle)]
pub extern "C" fn fadedopal_long_read_page(page: &[u8], bytes: &mut [u8]) -> u8
    ensures number_of_the_refusal_or_0_as_the_page_is_read { PageReadAs page.now bytes.old bytes.new result }
{
    number_told(read_page::<Long>(page, bytes))
}
