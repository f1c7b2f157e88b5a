//! Elements in memory, one after the other, before they are written.

ghost use Rattle.std.specs.Prelude.{◌≡◌, ◌≤◌, ◌<◌, ◌+◌, ◌-◌, ◌^◌, ◌++◌, ℕ, List, [], length};
ghost use Rattle.std.specs.Prelude.{take};
ghost use Rattle.ffv1_ebml.specs.Spelled.{ident_bytes, long, number_element};
ghost use Rattle.ffv1_sum.specs.Sum.{crc_of};
ghost use Rattle.ffv1_matroska.specs.Written.{checked, crc_element, short_element};

use crate::idents::CRC_32;
use ffv1_ebml::{long_header, short_header, spelled_number};
use ffv1_sum::crc32;
use std::marker::Model;

/// The most bytes that are put together.
const ROOM: usize = 512;

/// The ID of CRC-32.
/// Some bytes, which are seen as a list.
#[derive(Drop, Debug)]
pub(crate) struct Bytes {
    bytes: [u8; ROOM],
    len: usize,
}

impl Model for Bytes {
    ghost Value = { List ℕ };

    ghost view = { λ b. take b.len b.bytes };

    ghost invariant = { λ b. b.len ≤ 512 };
}

impl Bytes {
    /// None.
    pub(crate) fn new() -> Bytes
        ensures { result ≡ [] }
    {
        Bytes {
            bytes: [0; ROOM],
            len: 0,
        }
    }

    pub(crate) fn as_slice(&self) -> &[u8]
        ensures { result.now ≡ self.now }
    {
        &self.bytes[..self.len]
    }

    pub(crate) fn len(&self) -> usize
        ensures value { result ≡ length self.now }
        ensures most { result ≤ 512 }
    {
        self.len
    }

    /// Some bytes more.
    pub(crate) fn put(&mut self, more: &[u8])
        requires { length self.old + length more.now ≤ 512 }
        ensures value { self.new ≡ self.old ++ more.now }
        ensures len { length self.new ≡ length self.old + length more.now }
    {
        let len = self.len + more.len();
        self.bytes[self.len..len].copy_from_slice(more);
        self.len = len;
    }

    /// An element that holds a number in so many bytes.
    pub(crate) fn number(&mut self, ident: u32, width: usize, number: u64)
        requires width { width ≤ 8 }
        requires room { length self.old ≤ 499 }
        ensures value { self.new ≡ self.old ++ number_element ident width number }
        ensures len { length self.new ≤ length self.old + 13 }
        ensures short { length self.new ≤ length self.old + 5 + width }
    {
        let element = spelled_number(ident, width, number);
        self.put(element.as_slice());
    }

    /// An element of some content, its size in one byte.
    pub(crate) fn short(&mut self, ident: u32, content: &[u8])
        requires few { length content.now < 127 }
        requires room { length self.old + length content.now ≤ 507 }
        ensures value { self.new ≡ self.old ++ short_element ident content.now }
        ensures len { length self.new ≤ length self.old + length content.now + 5 }
    {
        let header = short_header(ident, content.len() as u8);
        self.put(header.as_slice());
        self.put(content);
    }

    /// The header of an element of so many bytes of content, its size in eight bytes.
    pub(crate) fn long(&mut self, ident: u32, size: u64)
        requires size { size < 2 ^ 56 - 1 }
        requires room { length self.old ≤ 500 }
        ensures value { self.new ≡ self.old ++ (ident_bytes ident ++ long size) }
        ensures len { length self.new ≤ length self.old + 12 }
    {
        let header = long_header(ident, size);
        self.put(header.as_slice());
    }

    /// The element of a CRC-32 that is this sum (RFC 8794, 11.3.1).
    pub(crate) fn sum(&mut self, sum: u32)
        requires { length self.old ≤ 499 }
        ensures value { (content : List ℕ) → sum ≡ crc_of content →
            self.new ≡ self.old ++ crc_element content }
        ensures len { length self.new ≤ length self.old + 13 }
    {
        let header = short_header(CRC_32, 4);
        self.put(header.as_slice());
        self.put(&sum.to_le_bytes());
    }

    /// Some content after its CRC-32.
    pub(crate) fn checked(&mut self, content: &[u8])
        requires { length self.old + length content.now ≤ 499 }
        ensures value { self.new ≡ self.old ++ checked content.now }
        ensures len { length self.new ≤ length self.old + length content.now + 13 }
    {
        self.sum(crc32(content));
        self.put(content);
    }
}
