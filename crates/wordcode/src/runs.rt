// Bytes and runs of bits within them.
ghost use Rattle.std.specs.Prelude.{◌≡◌, ◌-◌, ◌*◌, ◌≤◌, ◌++◌, length, drop, replicate};
ghost use Rattle.gf2.specs.Words.{bits, weight};

use gf2::bits::is_set;

// There is no heap, so what is put together stands in a buffer that holds the longest page, whatever the setting.
pub(crate) type Buffer = [u8; 2048];

pub(crate) const CLEAR: Buffer = [0; 2048];

// The number of set bits behind the first `count`. Who calls this passes on that the bytes are few, so that their bits have a number.
pub(crate) fn set_bits_behind(bytes: &[u8], count: usize) -> usize
    requires small { length bytes.now ≤ 2048 }
    ensures set_bits_behind { result ≡ weight (drop count (bits bytes.now)) }
{
    (count..8 * bytes.len())
        .filter(|place| is_set(bytes, *place))
        .count()
}

// Copies the source to the front and puts zeros behind it.
pub(crate) fn copy_and_clear(source: &[u8], out: &mut [u8])
    requires room { length source.now ≤ length out.old }
    ensures source_then_zeros { out.new ≡ source.now ++ replicate (length out.old - length source.now) 0 }
{
    out.fill(0);
    out[..source.len()].copy_from_slice(source);
}
