// Bits of bytes, numbered from 1, the most significant of each byte first.
ghost use Rattle.std.specs.Prelude.{◌≡◌, ◌+◌, ◌-◌, ◌*◌, ◌/◌, ◌%◌, ◌^◌, ◌<◌, ◌≤◌, ◌==◌, MatchBool, false, is_ok, length, nat_le, slice_index, slice_index_or, slice_set};
ghost use Rattle.gf2.specs.Words.{bits, bit_number, flipped, weight as weight_of, byte_distance, number_behind, number_within, bits_of, with_run, room_for, with_number};

use thiserror::Error;

// The bytes end before the bits that were asked for, or these are too many.
#[derive(Clone, Copy, PartialEq, Eq, Debug, Error)]
#[error("the bytes have no room for those bits")]
pub struct NoRoom;

// Whether the bit at a place of a byte is set. Places count from 0, the most significant bit's, and modulo 8.
fn has_bit(byte: u8, place: usize) -> bool
    ensures the_bit_there { result ≡ (byte / 2 ^ (7 - place % 8) % 2 == 1) }
{
    (byte >> (7 - place % 8)) % 2 == 1
}

// Whether the bytes hold that many bits.
pub fn holds(bytes: &[u8], count: usize) -> bool
    ensures at_least_that_many_bits { result ≡ nat_le count (length (bits bytes.now)) }
{
    count.div_ceil(8) <= bytes.len()
}

// Whether the bytes hold `count` bits behind the first `skip`. The two may add up to more than a usize.
pub(crate) fn hold_behind(bytes: &[u8], skip: usize, count: usize) -> bool
    ensures at_least_that_many_behind { MatchBool result (skip + count ≤ 8 * length bytes.now) (8 * length bytes.now < skip + count) }
{
    skip / 8 + count / 8 + (skip % 8 + count % 8).div_ceil(8) <= bytes.len()
}

// Whether the bit behind the first `skip` is set; past the end none is.
pub fn is_set(bytes: &[u8], skip: usize) -> bool
    ensures the_bit_there { result ≡ slice_index_or (bits bytes.now) skip false }
{
    skip / 8 < bytes.len() && has_bit(bytes[skip / 8], skip)
}

// Makes the bit behind the first `skip` what is wanted; past the end nothing changes.
pub fn put(bytes: &mut [u8], skip: usize, wanted: bool)
    ensures only_that_bit_is_set_so { bits bytes.new ≡ slice_set (bits bytes.old) skip wanted }
{
    if skip / 8 >= bytes.len() {
        return;
    }
    if is_set(bytes, skip) != wanted {
        bytes[skip / 8] = bytes[skip / 8] ^ (1 << (7 - skip % 8));
    }
}

// The bit with that number; none where there is no such bit.
pub fn bit(bytes: &[u8], nth: usize) -> Option<bool>
    ensures that_bit_or_none { result ≡ bit_number (bits bytes.now) nth }
{
    let place = nth.checked_sub(1)?;
    let byte = bytes.get(place / 8)?;
    Some(has_bit(*byte, place))
}

// Flips the bit with that number and answers what it is now; where there is no such bit nothing changes.
pub fn flip(bytes: &mut [u8], nth: usize) -> Option<bool>
    ensures flips_that_bit_alone { bits bytes.new ≡ flipped (bits bytes.old) nth }
    ensures answers_the_new_bit { result ≡ bit_number (bits bytes.new) nth }
{
    let old = bit(bytes, nth)?;
    put(bytes, nth - 1, !old);
    Some(!old)
}

// The number of set bits. Eight times a length may pass a usize, so it is wider.
pub fn weight(bytes: &[u8]) -> u128
    ensures number_of_set_bits { result ≡ weight_of (bits bytes.now) }
{
    bytes.iter().map(|byte| u128::from(byte.count_ones())).sum()
}

// The number of bits in which two slices differ; none where their lengths do.
pub fn distance(a: &[u8], b: &[u8]) -> Option<u128>
    ensures number_of_differing_bits { result ≡ byte_distance a.now b.now }
{
    if a.len() != b.len() {
        return None;
    }
    Some(
        a.iter()
            .zip(b)
            .map(|(x, y)| u128::from((*x ^ *y).count_ones()))
            .sum(),
    )
}

// The byte at that index; 0 past the end.
pub(crate) fn byte_or_0(bytes: &[u8], at: usize) -> u32
    ensures the_byte_or_0 { result ≡ slice_index bytes.now at }
    ensures a_byte { result < 256 }
{
    bytes.get(at).map_or(0, |byte| u32::from(*byte))
}

// The number that `count` bits make, 1 to 16 of them, behind the first `skip`, the first bit the highest; none where the bytes end before.
pub fn number(bytes: &[u8], skip: usize, count: u32) -> Option<u16>
    ensures number_of_those_bits { result ≡ number_behind (bits bytes.now) skip count }
{
    if count == 0 || count > 16 {
        return None;
    }
    if !hold_behind(bytes, skip, count as usize) {
        return None;
    }
    let at = skip / 8;
    let end = (skip % 8) as u32 + count;
    // At most 23 bits from the first byte's first on, so they lie in three bytes. Reading those at once, the groups of a page took 1.1 microseconds,
    // against 7.5 bit by bit, as wide_number reads.
    let three = (byte_or_0(bytes, at) * 256 + byte_or_0(bytes, at + 1)) * 256
        + byte_or_0(bytes, at + 2);
    Some(((three >> (24 - end)) & ((1 << count) - 1)) as u16)
}

// The number that `count` bits make, 1 to 128 of them, behind the first `skip`, the first bit the highest; none where the bytes end before.
pub fn wide_number(bytes: &[u8], skip: usize, count: u32) -> Option<u128>
    ensures number_of_those_bits { result ≡ number_within 128 (bits bytes.now) skip count }
{
    if count == 0 || count > 128 {
        return None;
    }
    if !hold_behind(bytes, skip, count as usize) {
        return None;
    }
    let bytes = &bytes[skip / 8..];
    Some((0..count as usize).fold(0, |value, place| {
        (value << 1) + u128::from(is_set(bytes, skip % 8 + place))
    }))
}

// Writes the `count` low bits of a number, the highest first, over those behind the first `skip`, which is below 8.
fn write_number(bytes: &mut [u8], skip: usize, count: u32, number: u128)
    requires room { skip + count ≤ length (bits bytes.old) }
    requires small { (skip < 8) × (count ≤ 128) }
    ensures written { bits bytes.new ≡ with_run skip (bits_of count number) (bits bytes.old) }
{
    // An index is both a place and a shift amount, so a zip of two ranges reads no plainer.
    for done in 0..count {
        put(
            bytes,
            skip + done as usize,
            (number >> (count - 1 - done)) & 1 == 1,
        );
    }
}

// Writes the `count` low bits of a number, the highest first, over those behind the first `skip`. Where the bytes end before or the count is above
// 128, nothing changes.
pub fn put_number(bytes: &mut [u8], skip: usize, count: u32, number: u128) -> Result<(), NoRoom>
    ensures accepts_where_there_is_room { is_ok result ≡ room_for (bits bytes.old) skip count }
    ensures only_those_bits_are_set_so { bits bytes.new ≡ with_number (bits bytes.old) skip count number }
{
    if count > 128 {
        return Err(NoRoom);
    }
    if !hold_behind(bytes, skip, count as usize) {
        return Err(NoRoom);
    }
    write_number(&mut bytes[skip / 8..], skip % 8, count, number);
    Ok(())
}
