//! Fields of headers, as they are spelled.

ghost use Rattle.std.specs.Prelude.{◌≡◌, ◌++◌, ℕ, List, length, OnOk, OnErr, replicate};
ghost use Rattle.std.specs.Io.KnownBytes.{Appends};
ghost use Rattle.ffv1_wire.specs.Passage.{passage};
ghost use Rattle.ffv1_avi.specs.Written.{field_bytes, fields_bytes, padding};
ghost use Rattle.ffv1_reads.specs.Writes.{Writes};

use byteorder::{ByteOrder, LittleEndian};
use ffv1_reads::FileFault;
use ffv1_wire::{ByteOut, write_all};

/// A field of four bytes.
#[derive(Clone, Copy)]
pub(crate) enum Field {
    Name([u8; 4]),
    Number(u32),
    Pair(u16, u16),
}

/// The four bytes of a field.
fn field_bytes(field: Field) -> [u8; 4]
    ensures { result ≡ field_bytes field }
{
    let mut bytes = [0u8; 4];
    match field {
        Field::Name(name) => bytes = name,
        Field::Number(n) => LittleEndian::write_u32(&mut bytes, n),
        Field::Pair(a, b) => {
            LittleEndian::write_u16(&mut bytes, a);
            LittleEndian::write_u16(&mut bytes[2..], b);
        }
    }
    bytes
}

/// Writes bytes.
pub(crate) fn put<W: ByteOut>(out: &mut W, bytes: &[u8]) -> Result<(), FileFault>
    ensures { Writes (passage W.contents W.failures out.old out.new) bytes.now result }
{
    match write_all(out, bytes) {
        Ok(()) => Ok(()),
        Err(_) => Err(FileFault::Write),
    }
}

/// Writes fields, one after the other.
pub(crate) fn put_fields<W: ByteOut>(out: &mut W, fields: &[Field]) -> Result<(), FileFault>
    ensures { Writes (passage W.contents W.failures out.old out.new)
        (fields_bytes fields.now) result }
{
    for field in fields {
        put(out, &field_bytes(*field))?;
    }
    Ok(())
}

/// Writes the padding of so many bytes.
pub(crate) fn put_padding<W: ByteOut>(out: &mut W, size: usize) -> Result<(), FileFault>
    ensures { Writes (passage W.contents W.failures out.old out.new) (padding size) result }
{
    put(out, &[0u8; 1][..size % 2])
}
