// Pages: data bytes as the codeword of a message, with a mark behind it.
ghost use Rattle.std.specs.Prelude.{◌≡◌, ◌≤◌, length, take, drop};
ghost use Rattle.gf2.specs.Words.{bits};
ghost use Rattle.wordcode.specs.Refusals.{told};
ghost use Rattle.wordcode.specs.Bytes.{padded};
ghost use Rattle.wordcode.specs.Page.{page_of, page_checked, PageMade, marked, PageRead};

use crate::lengths::check_lengths;
use crate::refusal::Refusal;
use crate::runs::{CLEAR, copy_and_clear, set_bits_behind};
use crate::sizes::{data_bytes, message_bytes, page_bytes, word_bits, word_bytes};
use crate::word::{Reading, encode, read};
use gf2::runs::copy_bits;
use inner::code::InnerCode;

// What a page held: nothing, by its mark, or a word that was read.
#[derive(Clone, Copy, PartialEq, Eq, Debug)]
pub enum PageReading {
    Blank,
    Word(Reading),
}

// The page of data bytes. Refused: the page stays as it is.
pub fn encode_page<C: InnerCode>(bytes: &[u8], page: &mut [u8]) -> Result<(), Refusal>
    ensures refuses_a_wrong_length { told result ≡ page_checked C.DATA C.CHECKS C.ERRORS C.TAIL bytes.now page.old }
    ensures writes_the_codeword_and_the_mark_or_nothing { PageMade (told result) (page_of C.DATA C.CHECKS C.ERRORS C.FIELD C.checks bytes.now) page.old page.new }
{
    check_lengths(bytes, data_bytes::<C>(), page, page_bytes::<C>())?;
    let mut message = CLEAR;
    copy_and_clear(bytes, &mut message);
    // The word's spare bits and what follows them are the mark.
    page.fill(0);
    encode::<C>(
        &message[..message_bytes::<C>()],
        &mut page[..word_bytes::<C>()],
    )
}

// Whether fewer than half of the bits behind the first `count` are set.
fn is_marked(page: &[u8], count: usize) -> bool
    requires small { (count ≤ length (bits page.now)) × (length page.now ≤ 2048) }
    ensures most_bits_of_the_mark_are_zero { result ≡ marked (drop count (bits page.now)) }
{
    2 * set_bits_behind(page, count) < 8 * page.len() - count
}

// Copies the first `count` bits and puts zeros behind them.
fn first_bits(page: &[u8], count: usize, word: &mut [u8])
    requires page_has_them { count ≤ length (bits page.now) }
    requires room { count ≤ length (bits word.old) }
    ensures those_bits_then_zeros { bits word.new ≡ padded (length (bits word.old)) (take count (bits page.now)) }
{
    word.fill(0);
    // There is room, as it is asked above.
    let _ = copy_bits(page, 0, count, word, 0);
}

// The data bytes of a page, as its mark says: of a word read by the rules, or all FF. Refused: the bytes stay as they are.
pub fn read_page<C: InnerCode>(page: &[u8], bytes: &mut [u8]) -> Result<PageReading, Refusal>
    ensures refuses_a_wrong_length_then_reads_by_the_mark { PageRead (page_checked C.DATA C.CHECKS C.ERRORS C.TAIL bytes.old page.now) C.DATA C.CHECKS C.ERRORS C.FIELD C.checks page.now bytes.old bytes.new result }
{
    let held = data_bytes::<C>();
    check_lengths(bytes, held, page, page_bytes::<C>())?;
    let bits = word_bits::<C>();
    if !is_marked(page, bits) {
        bytes.fill(0xFF);
        return Ok(PageReading::Blank);
    }
    let mut word = CLEAR;
    first_bits(page, bits, &mut word);
    let mut message = CLEAR;
    let reading = read::<C>(
        &word[..word_bytes::<C>()],
        &mut message[..message_bytes::<C>()],
    )?;
    copy_and_clear(&message[..held], bytes);
    Ok(PageReading::Word(reading))
}
