// A line of input, and the request in it. Lines may be of any length, so only the front of a line is kept.
use crate::request::{Command, Request, Setting};
use arrayvec::ArrayVec;

// Longer than any command with its setting and a page of the longest setting.
const KEPT: usize = 2112;

// The bytes behind the front.
#[derive(Clone, Copy)]
enum Behind {
    EvenDigits,
    OddDigits,
    Others,
}

impl Behind {
    fn with(self, byte: u8) -> Self {
        match self {
            Behind::EvenDigits if is_digit(byte) => Behind::OddDigits,
            Behind::OddDigits if is_digit(byte) => Behind::EvenDigits,
            _ => Behind::Others,
        }
    }
}

// Digits are hexadecimal and in upper case.
fn is_digit(byte: u8) -> bool {
    byte.is_ascii_hexdigit() && !byte.is_ascii_lowercase()
}

#[derive(Drop)]
pub struct Line {
    front: ArrayVec<u8, KEPT>,
    behind: Behind,
}

impl Line {
    pub fn new() -> Self {
        Line {
            front: ArrayVec::new(),
            behind: Behind::EvenDigits,
        }
    }

    pub fn is_empty(&self) -> bool {
        self.front.is_empty()
    }

    pub fn clear(&mut self) {
        self.front.clear();
        self.behind = Behind::EvenDigits;
    }

    pub fn push(&mut self, byte: u8) {
        if self.front.try_push(byte).is_err() {
            self.behind = self.behind.with(byte);
        }
    }

    // Three fields parted by one space each, the third of pairs of digits. Digits behind the front are only counted: with them there are
    // more than any call takes, so that it refuses the length of those that were kept.
    pub fn request(&self) -> Option<Request<'_>> {
        let mut fields = self.front.as_slice().splitn(3, |byte| *byte == b' ');
        let command = Command::try_from(fields.next()?).ok()?;
        let setting = Setting::try_from(fields.next()?).ok()?;
        let digits = fields.next()?;
        let pairs = digits.get(..digits.len() / 2 * 2)?;
        let is_paired = match self.behind {
            Behind::EvenDigits => pairs.len() == digits.len(),
            Behind::OddDigits => pairs.len() != digits.len(),
            Behind::Others => false,
        };
        if !is_paired || !digits.iter().all(|byte| is_digit(*byte)) {
            return None;
        }
        Some(Request {
            command,
            setting,
            digits: pairs,
        })
    }
}
