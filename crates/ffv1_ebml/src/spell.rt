//! Headers of elements, and elements that hold a number, as they are spelled.

ghost use Rattle.std.specs.Prelude.{◌≡◌, ◌≤◌, ◌<◌, ◌+◌, ◌++◌, ◌-◌, ◌^◌, ℕ, List, length, take};
ghost use Rattle.ffv1_ebml.specs.Spelled.{ident_bytes, ident_length, long, number_element, short};
ghost use Rattle.ffv1_ebml.specs.Spelled.{unknown};

use std::marker::Model;

/// The most bytes that are spelled at once.
const ROOM: usize = 16;

/// Some bytes that were spelled: a header, or an element that holds a number.
#[derive(Drop, Debug)]
pub struct Spelled {
    bytes: [u8; ROOM],
    len: usize,
}

impl Model for Spelled {
    ghost Value = { List ℕ };

    ghost view = { λ s. take s.len s.bytes };

    ghost invariant = { λ s. s.len ≤ 16 };
}

impl Spelled {
    /// The bytes.
    pub fn as_slice(&self) -> &[u8]
        ensures { result.now ≡ self.now }
    {
        &self.bytes[..self.len]
    }

    /// With some bytes more after them.
    fn with(self, more: &[u8]) -> Spelled
        requires { length self + length more.now ≤ 16 }
        ensures { result ≡ self ++ more.now }
    {
        let mut bytes = self.bytes;
        let len = self.len + more.len();
        bytes[self.len..len].copy_from_slice(more);
        Spelled { bytes, len }
    }
}

/// How many bytes an ID has.
#[tactic(auto, unfolding(crate::specs::Spelled::ident_length))]
fn ident_length(ident: u32) -> usize
    ensures value { result ≡ ident_length ident }
    ensures some { 1 ≤ result }
    ensures most { result ≤ 4 }
{
    if ident < 0x100 {
        1
    } else if ident < 0x1_0000 {
        2
    } else if ident < 0x100_0000 {
        3
    } else {
        4
    }
}

/// An ID.
fn spelled_ident(ident: u32) -> Spelled
    ensures bytes { result ≡ ident_bytes ident }
    ensures few { length result ≤ 4 }
{
    let none = Spelled {
        bytes: [0; ROOM],
        len: 0,
    };
    let all = ident.to_be_bytes();
    none.with(&all[4 - ident_length(ident)..])
}

/// The header of an element with this ID and so many bytes of content, its size in one byte.
pub fn short_header(ident: u32, size: u8) -> Spelled
    requires { size < 127 }
    ensures { result ≡ ident_bytes ident ++ short size }
{
    spelled_ident(ident).with(&[128 + size])
}

/// The header of an element with this ID and so many bytes of content, its size in eight bytes.
pub fn long_header(ident: u32, size: u64) -> Spelled
    requires { size < 2 ^ 56 - 1 }
    ensures { result ≡ ident_bytes ident ++ long size }
{
    let size = (1u64 << 56) + size;
    spelled_ident(ident).with(&size.to_be_bytes())
}

/// The header of an element with this ID and of unknown size, in eight bytes.
pub fn unknown_header(ident: u32) -> Spelled
    ensures { result ≡ ident_bytes ident ++ unknown }
{
    let size = (1u64 << 57) - 1;
    spelled_ident(ident).with(&size.to_be_bytes())
}

/// An element with this ID that holds a number in so many bytes, its size in one byte.
pub fn spelled_number(ident: u32, width: usize, number: u64) -> Spelled
    requires { width ≤ 8 }
    ensures { result ≡ number_element ident width number }
{
    let header = spelled_ident(ident).with(&[128 + width as u8]);
    let all = number.to_be_bytes();
    header.with(&all[8 - width..])
}
