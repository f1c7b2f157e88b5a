//! The states of a class of planes.

ghost use Rattle.std.specs.Prelude.{◌≡◌, length, replicate};

/// Sets each state to 128, as at the begin of a slice (RFC 9043, 3.8.1.3).
pub fn reset(states: &mut [u8])
    ensures { states.new ≡ replicate (length states.old) 128 }
{
    states.fill(128);
}
