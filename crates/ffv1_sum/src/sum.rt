//! The sum of bytes.

ghost use Rattle.std.specs.Prelude.{◌≡◌, ◌<◌, fold};
ghost use Rattle.ffv1_sum.specs.Sum.{byte_step, crc_of, entry_of};

use crate::tables::ENTRIES;

/// A byte, and some bytes 0 after it, struck out.
#[inline(always)]
fn entry(behind: usize, byte: usize) -> u32
    requires behind { behind < 8 }
    requires byte { byte < 256 }
    ensures { result ≡ entry_of behind byte }
{
    ENTRIES[behind][byte]
}

/// The sum after eight bytes more.
#[inline(always)]
fn after_block(sum: u32, block: &[u8; 8]) -> u32
    ensures { result ≡ fold byte_step sum block.now }
{
    let number = u64::from(sum) ^ u64::from_le_bytes(*block);
    entry(7, (number & 255) as usize)
        ^ entry(6, (number >> 8 & 255) as usize)
        ^ entry(5, (number >> 16 & 255) as usize)
        ^ entry(4, (number >> 24 & 255) as usize)
        ^ entry(3, (number >> 32 & 255) as usize)
        ^ entry(2, (number >> 40 & 255) as usize)
        ^ entry(1, (number >> 48 & 255) as usize)
        ^ entry(0, (number >> 56) as usize)
}

/// The sum after a byte more.
#[inline(always)]
fn after_byte(sum: u32, byte: u8) -> u32
    ensures { result ≡ byte_step sum byte }
{
    sum >> 8 ^ entry(0, ((sum ^ u32::from(byte)) & 255) as usize)
}

/// The sum of 32 bits after some bytes more (RFC 8794, 11.3.1), from the sum of those before them.
///
/// A sum begins with 4294967295, and is exclusive-or 4294967295 at its end.
pub fn more(sum: u32, bytes: &[u8]) -> u32
    ensures { result ≡ fold byte_step sum bytes.now }
{
    let (blocks, rest) = bytes.as_chunks::<8>();
    let mut sum = sum;
    for block in blocks {
        sum = after_block(sum, block);
    }
    for byte in rest {
        sum = after_byte(sum, *byte);
    }
    sum
}

/// The CRC-32 of bytes (RFC 8794, 11.3.1).
pub fn crc32(bytes: &[u8]) -> u32
    ensures { result ≡ crc_of bytes.now }
{
    more(!0, bytes) ^ !0
}
