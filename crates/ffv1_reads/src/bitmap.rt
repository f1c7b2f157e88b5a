//! The name of FFV1 in a format of Video for Windows.

ghost use Rattle.std.specs.Prelude.{◌≡◌};
ghost use Rattle.ffv1_reads.specs.Bitmap.{is_ffv1};

/// Whether these bytes are the four letters of FFV1, each great or small (biCompression of
/// BITMAPINFOHEADER; RFC 9043, 4.3.3; RFC 9559, 8).
#[tactic(auto, unfolding(crate::specs::Bitmap::is_ffv1))]
pub fn is_ffv1(bytes: &[u8]) -> bool
    ensures { result ≡ is_ffv1 bytes.now }
{
    bytes.eq_ignore_ascii_case(b"FFV1")
}
