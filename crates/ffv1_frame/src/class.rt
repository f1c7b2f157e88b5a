//! Classes of planes.

ghost use Rattle.std.specs.Prelude.{◌≡◌, ◌<◌};
ghost use Rattle.ffv1_frame.specs.SliceList.{class_of};

/// The class of a plane's states (RFC 9043, 3.6).
pub fn class_of(plane: u32) -> usize
    ensures value { result ≡ class_of plane }
    ensures few { result < 3 }
{
    match plane {
        0 => 0,
        1 => 1,
        2 => 1,
        _ => 2,
    }
}
