//! The remainder that guards configuration records and slices.

ghost use Rattle.std.specs.Prelude.{◌≡◌, ◌<◌, ◌++◌, List, ℕ};
ghost use Rattle.ffv1_record.specs.Parity.{parity_of, byte_remainder, remainder_behind};
ghost use Rattle.ffv1_range.specs.Codes.{value};

use crate::tables::REMAINDERS;

/// The remainder of a byte, some bytes 0 after it, and 32 bits 0.
#[inline(always)]
fn remainder_at(behind: usize, byte: usize) -> u32
    requires behind { behind < 16 }
    requires byte { byte < 256 }
    ensures { result ≡ byte_remainder behind byte }
{
    REMAINDERS[behind][byte]
}

/// The remainder of some bytes, sixteen more and 32 bits 0, from the remainder of the bytes and 32
/// bits 0.
#[inline(always)]
fn after_block(remainder: u32, block: &[u8; 16]) -> u32
    ensures { result ≡ remainder_behind 128 remainder (value block.now 16) }
{
    let first = remainder ^ u32::from_be_bytes([block[0], block[1], block[2], block[3]]);
    remainder_at(15, (first >> 24) as usize)
        ^ remainder_at(14, (first >> 16 & 255) as usize)
        ^ remainder_at(13, (first >> 8 & 255) as usize)
        ^ remainder_at(12, (first & 255) as usize)
        ^ remainder_at(11, block[4] as usize)
        ^ remainder_at(10, block[5] as usize)
        ^ remainder_at(9, block[6] as usize)
        ^ remainder_at(8, block[7] as usize)
        ^ remainder_at(7, block[8] as usize)
        ^ remainder_at(6, block[9] as usize)
        ^ remainder_at(5, block[10] as usize)
        ^ remainder_at(4, block[11] as usize)
        ^ remainder_at(3, block[12] as usize)
        ^ remainder_at(2, block[13] as usize)
        ^ remainder_at(1, block[14] as usize)
        ^ remainder_at(0, block[15] as usize)
}

/// The remainder of some bytes, one more and 32 bits 0, from the remainder of the bytes and 32 bits
/// 0.
#[inline(always)]
fn after_byte(remainder: u32, byte: u8) -> u32
    ensures { result ≡ remainder_behind 8 remainder byte }
{
    remainder << 8 ^ remainder_at(0, (remainder >> 24) as usize ^ byte as usize)
}

/// The parity of bytes: the remainder of the bytes followed by 32 bits 0, on long division by the
/// generator 0x104C11DB7, the highest bit of each byte first (RFC 9043, 4.3.2 and 4.9.3).
///
/// Bytes that are followed by their parity, big end first, have the remainder 0, and the parity of
/// bytes is 0 exactly if their remainder is.
pub fn parity(bytes: &[u8]) -> u32
    ensures { result ≡ parity_of bytes.now }
{
    let (blocks, rest) = bytes.as_chunks::<16>();
    let mut remainder = 0;
    for block in blocks {
        remainder = after_block(remainder, block);
    }
    for byte in rest {
        remainder = after_byte(remainder, *byte);
    }
    remainder
}

/// The parity of some bytes and of more behind them, from the parity of the bytes.
pub fn parity_behind(parity: u32, more: &[u8]) -> u32
    ensures { (bytes : List ℕ) → parity ≡ parity_of bytes → result ≡ parity_of (bytes ++ more.now) }
{
    let mut remainder = parity;
    for byte in more {
        remainder = after_byte(remainder, *byte);
    }
    remainder
}
