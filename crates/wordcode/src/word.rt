// Words over an inner code.
ghost use Rattle.std.specs.Prelude.{◌≡◌, ◌+◌, ◌≤◌, true, ◌++◌, length, take, drop, if◌then◌else◌, Ok, Err};
ghost use Rattle.gf2.specs.Words.{bits, bits_of};
ghost use Rattle.inner.specs.Pages.{word_bits as word_bits_of};
ghost use Rattle.wordcode.specs.Codeword.{codeword};
ghost use Rattle.wordcode.specs.Refusals.{told};
ghost use Rattle.wordcode.specs.Bytes.{checked, spare_clear, padded};
ghost use Rattle.wordcode.specs.Settling.{message_of};
ghost use Rattle.wordcode.specs.Encoding.{Written, ReadByTheRules};

use crate::last::last_bits;
use crate::lengths::check_lengths;
use crate::refusal::Refusal;
use crate::runs::{Buffer, CLEAR, copy_and_clear, set_bits_behind};
use crate::settle::choice_for;
use crate::sizes::{message_bytes, word_bits, word_bytes};
use gf2::bits::{is_set, put, put_number};
use gf2::runs::copy_bits;
use inner::code::InnerCode;
use pagecode::message::inner_data;

// A word read: the distance to the codeword whose message was given, and whether that codeword was found by rule 2, over the bound of t bits.
// The distance is told either way, so the flag stands beside it.
#[derive(Clone, Copy, PartialEq, Eq, Debug)]
pub struct Reading {
    pub distance: usize,
    pub over: bool,
}

// Whether no spare bit is set behind the first `bits`.
fn check_spare_bits(bytes: &[u8], bits: usize) -> Result<(), Refusal>
    requires small { length bytes.now ≤ 2048 }
    ensures refuses_a_spare_bit { told result ≡ (if spare_clear bits bytes.now then Ok tt else Err 7) }
{
    if set_bits_behind(bytes, bits) != 0 {
        return Err(Refusal::SpareBits);
    }
    Ok(())
}

// Writes the message, the check bits that the inner codeword has behind its data bits, and the last bits, then zeros.
fn lay_out<C: InnerCode>(message: &[u8], inner: &Buffer, last: u16, word: &mut [u8])
    requires message_in_whole_bytes { (C.DATA + 1 ≤ length (bits message.now)) × (spare_clear (C.DATA + 1) message.now ≡ true) }
    requires word_has_room { (length message.now ≤ length word.old) × (word_bits_of C.DATA C.CHECKS C.TAIL ≤ length (bits word.old)) }
    ensures message_checks_and_last_bits { bits word.new ≡ padded (length (bits word.old)) ((take (C.DATA + 1) (bits message.now) ++ take C.CHECKS (drop C.DATA (bits inner.now))) ++ bits_of C.TAIL last) }
{
    let k1 = C::DATA;
    let r1 = C::CHECKS;
    copy_and_clear(message, word);
    // There is room for both.
    let _ = copy_bits(inner, k1, r1, word, k1 + 1);
    let _ = put_number(word, k1 + 1 + r1, C::TAIL as u32, u128::from(last));
}

// The message of u and v's data bits, which begin `inner`, then zeros.
fn write_message<C: InnerCode>(inner: &Buffer, u: bool, message: &mut [u8])
    requires message_has_room { C.DATA + 1 ≤ length (bits message.old) }
    ensures written { bits message.new ≡ padded (length (bits message.old)) (message_of u (take C.DATA (bits inner.now))) }
{
    message.fill(0);
    put(message, 0, u);
    // There is room for a message.
    let _ = copy_bits(inner, 0, C::DATA, message, 1);
    put(message, 1, is_set(inner, 0) != u);
}

// The codeword of a message; both stand in whole bytes whose spare last bits are zero. Refused: the word stays as it is.
pub fn encode<C: InnerCode>(message: &[u8], word: &mut [u8]) -> Result<(), Refusal>
    ensures refuses_a_wrong_length_then_spare_bits { told result ≡ checked (C.DATA + 1) (word_bits_of C.DATA C.CHECKS C.TAIL) message.now word.old }
    ensures writes_the_codeword_or_nothing { Written (told result) (codeword C.FIELD C.checks (take (C.DATA + 1) (bits message.now))) word.old word.new }
{
    check_lengths(message, message_bytes::<C>(), word, word_bytes::<C>())?;
    check_spare_bits(message, C::DATA + 1)?;
    // The lengths were tested and a buffer has room, so none of these refuses.
    let mut inner = CLEAR;
    let _ = inner_data(message, C::DATA, &mut inner);
    let _ = C::complete(&mut inner);
    let last = last_bits::<C>(&inner, is_set(message, 0));
    lay_out::<C>(message, &inner, last, word);
    Ok(())
}

// The message of a word, by the rules of reading. Refused: the message stays as it is.
pub fn read<C: InnerCode>(word: &[u8], message: &mut [u8]) -> Result<Reading, Refusal>
    ensures refuses_a_wrong_length_then_spare_bits_then_answers_by_the_rules { ReadByTheRules C.DATA C.CHECKS C.ERRORS C.FIELD C.checks (checked (word_bits_of C.DATA C.CHECKS C.TAIL) (C.DATA + 1) word.now message.old) word.now message.old message.new result }
{
    check_lengths(word, word_bytes::<C>(), message, message_bytes::<C>())?;
    check_spare_bits(word, word_bits::<C>())?;
    let mut inner = CLEAR;
    let choice = choice_for::<C>(word, &mut inner).ok_or(Refusal::Unreadable)?;
    write_message::<C>(&inner, choice.u, message);
    Ok(choice.reading)
}
