//! Bits of bytes.

ghost use Rattle.std.specs.Prelude.{◌≡◌, ◌+◌, ◌-◌, ◌*◌, ◌^◌, ◌<◌, ◌≤◌, ◌↔◌, IsTrue, length, drop};
ghost use Rattle.std.specs.Prelude.{slice_index};
ghost use Rattle.ffv1_rice.specs.Bits.{bits_from, bits_of, number_of, IsPadding};

use std::marker::Model;

/// The bits of some bytes that are left to be read, the high one of each byte first (RFC 9043,
/// 3.8.2). In a contract it is their list. It takes no memory.
#[derive(Drop)]
pub struct Bits<'a> {
    bytes: &'a [u8],
    // How many whole bytes are read, and how many bits of the next.
    place: usize,
    turn: u32,
}

impl<'a> Model for Bits<'a> {
    ghost use Rattle.std.specs.Prelude.{Bool, List, length, ◌+◌, ◌-◌, ◌*◌};
    ghost use Rattle.ffv1_rice.specs.Bits.{bits_from};
    ghost use Rattle.ffv1_rice.specs.Internal.Place.{IsPlace};

    ghost Value = { List Bool };

    ghost view = { λ b. bits_from b.bytes.now (8 * b.place + b.turn)
        (8 * length b.bytes.now - (8 * b.place + b.turn)) };

    ghost invariant = { λ b. IsPlace (length b.bytes.now) b.place b.turn };
}

/// How many bits of some bytes are left, without the bytes: what is kept of bits between two rows.
/// In a contract it is that number.
#[derive(Drop)]
pub struct ParkedBits {
    // How many bytes are not read whole, and how many bits of the first of them are.
    left: usize,
    turn: u32,
}

impl Model for ParkedBits {
    ghost use Rattle.std.specs.Prelude.{ℕ, ◌-◌, ◌*◌};
    ghost use Rattle.ffv1_rice.specs.Internal.Place.{IsPlace};

    ghost Value = { ℕ };

    ghost view = { λ b. 8 * b.left - b.turn };

    ghost invariant = { λ b. IsPlace b.left 0 b.turn };
}

/// The byte at a place, and 0 after the last.
#[inline(always)]
fn byte_at(bytes: &[u8], place: usize) -> u64
    ensures value { result ≡ slice_index bytes.now place }
    ensures byte { result < 256 }
{
    if place < bytes.len() {
        return u64::from(bytes[place]);
    }
    0
}

/// The 64 bits of eight bytes from a place on, of which not all are there: after the last all bits
/// are 0.
#[inline(never)]
fn last_window(bytes: &[u8], place: usize) -> u64
    requires { place ≤ length bytes.now }
    ensures { result ≡ number_of 64 (bits_from bytes.now (8 * place) 64) }
{
    let mut window = 0;
    for k in 0..8usize {
        window = window * 256 + byte_at(bytes, place + k);
    }
    window
}

/// The 64 bits of eight bytes from a place on; after the last byte all are 0.
#[inline(always)]
fn window(bytes: &[u8], place: usize) -> u64
    requires { place ≤ length bytes.now }
    ensures { result ≡ number_of 64 (bits_from bytes.now (8 * place) 64) }
{
    if bytes.len() - place < 8 {
        return last_window(bytes, place);
    }
    u64::from_be_bytes([
        bytes[place],
        bytes[place + 1],
        bytes[place + 2],
        bytes[place + 3],
        bytes[place + 4],
        bytes[place + 5],
        bytes[place + 6],
        bytes[place + 7],
    ])
}

impl<'a> Bits<'a> {
    /// All bits of some bytes.
    pub fn new(bytes: &'a [u8]) -> Bits<'a>
        ensures { result ≡ bits_of bytes.now }
    {
        Bits {
            bytes,
            place: 0,
            turn: 0,
        }
    }

    /// The bits of some bytes after the first `at` of them.
    pub fn behind(bytes: &'a [u8], at: usize) -> Bits<'a>
        requires { at ≤ length bytes.now }
        ensures { result ≡ drop (8 * at) (bits_of bytes.now) }
    {
        Bits {
            bytes,
            place: at,
            turn: 0,
        }
    }

    /// How many bits are left, to go on with them by the same bytes (`ParkedBits::wake`).
    pub fn park(&self) -> ParkedBits
        ensures { result ≡ length self.now }
    {
        ParkedBits {
            left: self.bytes.len() - self.place,
            turn: self.turn,
        }
    }

    /// The same bits.
    #[inline(always)]
    pub(crate) fn copy(&self) -> Bits<'a>
        ensures { result ≡ self.now }
    {
        Bits {
            bytes: self.bytes,
            place: self.place,
            turn: self.turn,
        }
    }

    /// The next 32 bits as a number, the high one first; after the last bit all are 0.
    #[inline(always)]
    pub(crate) fn peek(&self) -> u32
        ensures { result ≡ number_of 32 self.now }
    {
        let window = window(self.bytes, self.place);
        ((window << self.turn) >> 32) as u32
    }

    /// Whether so many bits are left, at most 32.
    #[inline(always)]
    pub(crate) fn has(&self, count: u32) -> bool
        requires { count ≤ 32 }
        ensures { IsTrue result ↔ (count ≤ length self.now) }
    {
        let left = self.bytes.len() - self.place;
        left >= 5 || self.turn + count <= 8 * left as u32
    }

    /// Goes past so many bits, at most 32, which are left.
    #[inline(always)]
    pub(crate) fn skip(&mut self, count: u32)
        requires few { count ≤ 32 }
        requires left { count ≤ length self.old }
        ensures { self.new ≡ drop count self.old }
    {
        let turn = self.turn + count;
        self.place += (turn / 8) as usize;
        self.turn = turn % 8;
    }

    /// Whether no whole byte is left, and all bits that are left are 0: they fill the last byte
    /// (RFC 9043, 3.8.2). It moves nothing.
    pub fn is_padding(&self) -> bool
        ensures { IsTrue result ↔ IsPadding self.now }
    {
        !self.has(8) && self.peek() == 0
    }
}

impl ParkedBits {
    /// The last bits of some bytes, as many as were left when they were parked: the same, if the
    /// bytes are (`laws::bits_that_are_left_are_the_last`).
    pub fn wake<'a>(&self, bytes: &'a [u8]) -> Bits<'a>
        requires { self.now ≤ 8 * length bytes.now }
        ensures { result ≡ drop (8 * length bytes.now - self.now) (bits_of bytes.now) }
    {
        Bits {
            bytes,
            place: bytes.len() - self.left,
            turn: self.turn,
        }
    }
}
