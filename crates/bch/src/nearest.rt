// The codeword at most t bits away.
ghost use Rattle.gf2.specs.Words.{bits};
ghost use Rattle.bch.specs.Nearest.{Nearest};

use crate::code::Bch;

impl Bch {
    // Corrects the first bits of the word to the codeword at most t bits away, and answers how many bits that flipped. None, and nothing
    // changes, exactly if there is no such codeword or the word has too few bits.
    pub fn nearest(self, word: &mut [u8]) -> Option<usize>
        ensures the_codeword_at_most_t_bits_away_or_none { Nearest self (bits word.old) (bits word.new) result }
    {
        let rest = self.rest(word)?;
        if rest == 0 {
            return Some(0);
        }
        // The word differs from a codeword by the rest alone, so the two have the same syndromes.
        let left = self.syndromes(rest).solve(self.errors());
        let flips = self.flip_roots(&left, word);
        if flips <= self.errors() && self.rest(word) == Some(0) {
            return Some(flips);
        }
        let _ = self.flip_roots(&left, word);
        None
    }
}
