//! Parts of bytes that may be shorter.

ghost use Rattle.std.specs.Prelude.{◌≡◌, drop, take};
ghost use Rattle.ffv1_avi.specs.Walk.{is_name};

/// The first so many bytes, or all if there are fewer.
pub(crate) fn before(bytes: &[u8], count: usize) -> &[u8]
    ensures { result.now ≡ take count bytes.now }
{
    if count < bytes.len() {
        &bytes[..count]
    } else {
        bytes
    }
}

/// The bytes after the first so many, or none if there are no more.
pub(crate) fn after(bytes: &[u8], count: usize) -> &[u8]
    ensures { result.now ≡ drop count bytes.now }
{
    if count < bytes.len() {
        &bytes[count..]
    } else {
        &bytes[bytes.len()..]
    }
}

/// Whether some bytes are this name.
pub(crate) fn is_name(bytes: &[u8], name: &[u8]) -> bool
    ensures { result ≡ is_name bytes.now name.now }
{
    bytes == name
}
