// How many bits and bytes messages, words, data and pages have in a setting.
ghost use Rattle.std.specs.Prelude.{◌≡◌, ◌+◌};
ghost use Rattle.inner.specs.Pages.{word_bits as word_bits_of, bytes_for, page_bytes as page_bytes_of};
ghost use Rattle.wordcode.specs.Page.{data_bytes as data_bytes_of};

use inner::code::InnerCode;

pub fn message_bytes<C: InnerCode>() -> usize
    ensures hold_a_message { result ≡ bytes_for (C.DATA + 1) }
{
    (C::DATA + 1).div_ceil(8)
}

pub(crate) fn word_bits<C: InnerCode>() -> usize
    ensures bits_of_a_word { result ≡ word_bits_of C.DATA C.CHECKS C.TAIL }
{
    1 + (C::DATA + C::CHECKS) + C::TAIL
}

pub fn word_bytes<C: InnerCode>() -> usize
    ensures hold_a_word { result ≡ bytes_for (word_bits_of C.DATA C.CHECKS C.TAIL) }
{
    word_bits::<C>().div_ceil(8)
}

// The whole bytes that a message holds, which are the data of a page.
pub fn data_bytes<C: InnerCode>() -> usize
    ensures whole_bytes_of_a_message { result ≡ data_bytes_of C.DATA }
{
    (C::DATA + 1) / 8
}

// A page has a word and the mark, at least 2t + 1 bits.
pub fn page_bytes<C: InnerCode>() -> usize
    ensures hold_a_word_and_its_mark { result ≡ page_bytes_of C.DATA C.CHECKS C.ERRORS C.TAIL }
{
    (word_bits::<C>() + 2 * C::ERRORS + 1).div_ceil(8)
}
