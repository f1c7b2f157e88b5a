// SPDX-License-Identifier: MIT OR Apache-2.0
//! Elements of EBML (RFC 8794): an ID, a size, and that many bytes of content, big end first.
//!
//! From a reader of bytes, `next_element` reads the header of an element in a parent that has so
//! many bytes left. `next_element_in` does so if elements of some IDs stand only outside of it, and
//! `first_element` if the end of the input is an answer. `next_data` reads an integer of variable
//! size alone. `pass_content` passes an element's content, and judges the CRC-32 that it begins
//! with. A `Sum` goes along if a CRC-32 is awaited: `take_summed`, `pass_summed` and `fill_summed`
//! read bytes and sum them.
//!
//! In memory, `first_child` gives the first element of some content, and `find` the first with an
//! ID; `number` and `text` read what it holds, and `judge` judges a CRC-32. Nothing is copied.
//!
//! `short_header`, `long_header`, `unknown_header` and `spelled_number` spell elements. `laws` says
//! that what is spelled is read, and found. The tests `ebml` of `ffv1_file_tests` run this:
//!
//! ```text
//! let mut sum = Sum::Absent;
//! let element = next_element(&mut input, left, &mut sum)?;
//! let kind = find(content, 0x4282)?.ok_or("no DocType")?;
//! assert!(rt; text(kind) == b"matroska".as_slice());
//! ```
#![tactic(auto)]

mod content;
mod element;
pub mod laws;
mod spell;
mod sum;
mod tried;
mod vint;

pub use content::{Child, find, first_child, judge, number, text};
pub use element::{
    Data, Element, first_element, next_data, next_element, next_element_in, pass_content,
};
pub use spell::{Spelled, long_header, short_header, spelled_number, unknown_header};
pub use sum::{Sum, fill_summed, pass_summed, take_summed};
pub use tried::{Header, try_header, try_vint, try_vint_after};
pub use vint::{Vint, data_of, number_of, size_of};
