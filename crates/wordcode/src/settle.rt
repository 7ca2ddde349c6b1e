// Which message the rules choose once the inner codeword near the middle of a word is known: it belongs to two codewords, one for each u.
ghost use Rattle.std.specs.Prelude.{◌≡◌, ◌+◌, ◌-◌, ◌<◌, ◌≤◌, false, length, take, if◌then◌else◌, slice_index_or};
ghost use Rattle.gf2.specs.Words.{bits};
ghost use Rattle.inner.specs.Pages.{word_bits as word_bits_of};
ghost use Rattle.gf2.specs.Fields.{width as width_of};
ghost use Rattle.wordcode.specs.Reading.{Reads};
ghost use Rattle.wordcode.specs.Settling.{chosen, chosen_by, answer_with, last_bits_apart};

use crate::last::{bits_apart, last_bits};
use crate::runs::Buffer;
use crate::word::Reading;
use gf2::bits::is_set;
use inner::code::InnerCode;
use pagecode::message::inner_data;

// The u of the message that the rules choose, with what is told of it.
#[derive(Clone, Copy)]
pub(crate) struct Choice {
    pub u: bool,
    pub reading: Reading,
}

// The two codewords against the word.
#[derive(Clone, Copy)]
struct Candidates {
    // The word's first bit, and the u of the first codeword.
    first: bool,
    // The distance of the first codeword.
    near: usize,
    // The distance of the other.
    far: usize,
    // Whether the other has the word's last bits.
    far_ends_alike: bool,
}

impl Candidates {
    // By distance first, then by the last bits.
    fn choose(self, t: usize) -> Option<Choice>
        ensures by_the_rules { result ≡ chosen t self.first self.near self.far self.far_ends_alike }
    {
        let (u, distance, over) = if self.near <= t {
            (self.first, self.near, false)
        } else if self.far <= t {
            (!self.first, self.far, false)
        } else if self.far_ends_alike {
            (!self.first, self.far, true)
        } else {
            return None;
        };
        let reading = Reading { distance, over };
        Some(Choice { u, reading })
    }
}

// The distance of two words after a bit of one is turned, by whether they differed there.
fn turned_distance(distance: usize, differed: bool) -> usize
    requires small { distance < 65536 }
    ensures one_less_or_one_more { result ≡ (if differed then distance - 1 else distance + 1) }
{
    if differed {
        distance.saturating_sub(1)
    } else {
        distance + 1
    }
}

// The choice for a word when v begins `inner`: `flips` is the distance of v from the word's middle y, `turned` that from y with its first bit turned.
fn settle<C: InnerCode>(word: &[u8], inner: &Buffer, flips: usize, turned: usize) -> Option<Choice>
    requires word_has_its_bits { word_bits_of C.DATA C.CHECKS C.TAIL ≤ length (bits word.now) }
    requires small { (flips ≤ 65536) × (turned ≤ 65536) }
    ensures by_the_rules { result ≡ chosen_by C.ERRORS C.TAIL (slice_index_or (bits word.now) 0 false) flips turned (last_bits_apart C.DATA C.CHECKS C.FIELD (bits word.now) (bits inner.now)) }
{
    let r2 = C::TAIL;
    let first = is_set(word, 0);
    let last = last_bits::<C>(inner, first);
    let apart = bits_apart(word, 1 + (C::DATA + C::CHECKS), C::FIELD, last);
    let candidates = Candidates {
        first,
        near: flips + apart,
        far: 1 + turned + r2.saturating_sub(apart),
        far_ends_alike: apart == r2,
    };
    candidates.choose(C::ERRORS)
}

// The choice for a word. Its middle y is corrected in `inner`, so that a choice's v stands at the front there.
pub(crate) fn choice_for<C: InnerCode>(word: &[u8], inner: &mut Buffer) -> Option<Choice>
    requires word_has_its_bits { word_bits_of C.DATA C.CHECKS C.TAIL ≤ length (bits word.now) }
    ensures answers_the_word_by_the_rules { Reads C.DATA C.CHECKS C.ERRORS C.FIELD C.checks (take (word_bits_of C.DATA C.CHECKS (width_of C.FIELD)) (bits word.now)) (answer_with (take C.DATA (bits inner.new)) result) }
{
    // A buffer has room, so this does not refuse.
    let _ = inner_data(word, C::DATA + C::CHECKS, inner);
    let before = is_set(inner, 0);
    let flips = C::nearest(inner)?;
    let turned = turned_distance(flips, before != is_set(inner, 0));
    settle::<C>(word, inner, flips, turned)
}
