// Labels of the bits of a word in the setting short.
ghost use Rattle.std.specs.Prelude.{◌≡◌, length, take, if◌then◌else◌, Some, None, nat_le};
ghost use Rattle.gf2.specs.Words.{bits};
ghost use Rattle.position.specs.Labels.{label_sum, PlaceOf};
ghost use Rattle.position.specs.Short.{data_labels, short_labels};

use gf2::bits::{is_set, number};

// The labels of the set data bits, added.
pub(crate) fn data_sum(word: &[u8]) -> u16
    ensures sum_over_the_data_bits { result ≡ label_sum data_labels (bits word.now) }
{
    (3u16..555)
        .filter(|label| !label.is_power_of_two())
        .enumerate()
        .filter(|(place, _)| is_set(word, *place))
        .fold(0, |sum, (_, label)| sum ^ label)
}

// The labels of all set bits, added; none where there are too few bits. The check bits add to the number that they make.
pub(crate) fn word_sum(word: &[u8]) -> Option<u16>
    ensures sum_over_the_word { result ≡ (if nat_le 554 (length (bits word.now)) then Some (label_sum short_labels (take 554 (bits word.now))) else None) }
{
    let checks = number(word, 544, 10)?;
    Some(data_sum(word) ^ checks)
}

// The place of the bit with that label, counted from 0; none where no bit has it.
pub(crate) fn place_of(label: u16) -> Option<usize>
    ensures a_place_with_that_label_or_none { PlaceOf short_labels label result }
{
    if label == 0 || label > 554 {
        return None;
    }
    let log = label.ilog2() as usize;
    if label.is_power_of_two() {
        return Some(553 - log);
    }
    // Of the smaller numbers above 0, log + 1 are powers of two.
    Some(label as usize - 2 - log)
}
