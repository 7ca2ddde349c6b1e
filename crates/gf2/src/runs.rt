// Runs of bits, copied from bytes to bytes.
ghost use Rattle.std.specs.Prelude.{◌≡◌, ◌+◌, ◌^◌, ◌<◌, ◌≤◌, is_ok, length, take, drop};
ghost use Rattle.gf2.specs.Words.{bits, bits_of, with_run, both_have, with_bits_of};

use crate::bits::{NoRoom, byte_or_0, hold_behind};

// The eight bits behind the first `skip`, as a byte. Shifts alone, so that LLVM makes the bytes of a run many at once.
#[tactic(auto, using(crate::proofs::Places::bits_length))]
fn byte_behind(bytes: &[u8], skip: usize) -> u8
    requires near { skip < 8 }
    requires has_them { skip + 8 ≤ length (bits bytes.now) }
    ensures those_bits { bits_of 8 result ≡ take 8 (drop skip (bits bytes.now)) }
{
    if skip == 0 {
        return bytes[0];
    }
    (bytes[0] << skip) | (bytes[1] >> (8 - skip))
}

// The number that `count` bits make, 1 to 8 of them, behind the first `skip`, which lie in two bytes.
fn few_behind(bytes: &[u8], skip: usize, count: usize) -> u32
    requires near { skip < 8 }
    requires few { (0 < count) × (count ≤ 8) }
    requires has_them { skip + count ≤ length (bits bytes.now) }
    ensures those_bits { bits_of count result ≡ take count (drop skip (bits bytes.now)) }
    ensures no_more_bits { result < 2 ^ count }
{
    let two = byte_or_0(bytes, 0) * 256 + byte_or_0(bytes, 1);
    (two >> (16 - (skip + count))) & ((1 << count) - 1)
}

// The `count` bits behind the first `skip`, fewer than 8, of bytes that have them.
#[derive(Clone, Copy)]
struct Run<'a> {
    bytes: &'a [u8],
    skip: usize,
    count: usize,
    ghost near: { skip < 8 },
    ghost inside: { skip + count ≤ length (bits bytes.now) },
}

impl Run<'_> {
    // Copies bits to places of the first byte of `out`; there may be none to copy.
    fn copy_few(&self, out: &mut [u8], at: usize)
        requires within_a_byte { at + self.now.count ≤ 8 }
        requires out_has_room { at + self.now.count ≤ length (bits out.old) }
        ensures copied { bits out.new ≡ with_run at (take self.now.count (drop self.now.skip (bits self.now.bytes.now))) (bits out.old) }
    {
        if self.count > 0 {
            self.copy_into_byte(out, at);
        }
    }

    // The same of one bit or more, all at once. It stays a call, so that a copy of whole bytes is short enough to be inlined.
    #[inline(never)]
    #[tactic(auto, using(crate::proofs::Places::bits_length))]
    fn copy_into_byte(&self, out: &mut [u8], at: usize)
        requires some { 0 < self.now.count }
        requires within_a_byte { at + self.now.count ≤ 8 }
        requires out_has_room { at + self.now.count ≤ length (bits out.old) }
        ensures copied { bits out.new ≡ with_run at (take self.now.count (drop self.now.skip (bits self.now.bytes.now))) (bits out.old) }
    {
        let run = few_behind(self.bytes, self.skip, self.count);
        let behind = 8 - at;
        let past = behind - self.count;
        let old = u32::from(out[0]);
        let end = (run << past) | (old & ((1 << past) - 1));
        out[0] = ((old >> behind << behind) | end) as u8;
    }

    // Copies bits over the first of `out`: whole bytes, then the bits that are left.
    #[tactic(auto, using(crate::proofs::Places::bits_length))]
    fn copy_to_front(&self, out: &mut [u8])
        requires out_has_room { self.now.count ≤ length (bits out.old) }
        ensures copied { bits out.new ≡ with_run 0 (take self.now.count (drop self.now.skip (bits self.now.bytes.now))) (bits out.old) }
    {
        let whole = self.count / 8;
        // The index is a place in both slices, as the bits of a byte come from two bytes of the source: numbering those of `out` would keep it.
        for i in 0..whole {
            out[i] = byte_behind(&self.bytes[i..], self.skip);
        }
        let left = Run {
            bytes: &self.bytes[whole..],
            skip: self.skip,
            count: self.count % 8,
        };
        left.copy_few(&mut out[whole..], 0);
    }

    // Copies bits to a place in the first byte of `out`: those up to the byte's end, then the rest.
    #[tactic(auto, using(crate::proofs::Places::bits_length))]
    fn copy_near(&self, out: &mut [u8], at: usize)
        requires near { at < 8 }
        requires out_has_room { at + self.now.count ≤ length (bits out.old) }
        ensures copied { bits out.new ≡ with_run at (take self.now.count (drop self.now.skip (bits self.now.bytes.now))) (bits out.old) }
    {
        let first = self.count.min((8 - at) % 8);
        let front = Run {
            bytes: self.bytes,
            skip: self.skip,
            count: first,
        };
        front.copy_few(out, at);
        let skip = self.skip + first;
        let rest = Run {
            bytes: &self.bytes[skip / 8..],
            skip: skip % 8,
            count: self.count - first,
        };
        rest.copy_to_front(&mut out[(at + first) / 8..]);
    }
}

// Copies the `count` bits behind the first `skip` of the source over those behind the first `at` of `out`. Where either has too few bits, nothing
// changes.
#[tactic(auto, using(crate::proofs::Places::bits_length))]
#[inline]
pub fn copy_bits(
    source: &[u8],
    skip: usize,
    count: usize,
    out: &mut [u8],
    at: usize,
) -> Result<(), NoRoom>
    ensures accepts_where_both_have_the_bits { is_ok result ≡ both_have count (bits source.now) skip (bits out.old) at }
    ensures copies_those_bits_alone { bits out.new ≡ with_bits_of count (bits source.now) skip (bits out.old) at }
{
    if !hold_behind(source, skip, count) || !hold_behind(out, at, count) {
        return Err(NoRoom);
    }
    let run = Run {
        bytes: &source[skip / 8..],
        skip: skip % 8,
        count,
    };
    run.copy_near(&mut out[at / 8..], at % 8);
    Ok(())
}
