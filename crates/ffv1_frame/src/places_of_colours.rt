//! Which planes are taken for green and for blue in RCT.

ghost use Rattle.std.specs.Prelude.{◌≡◌, ◌≤◌};
ghost use Rattle.ffv1_frame.specs.Picture.{blue_of, green_of, swaps};

use ffv1_record::Checked;
use std::alloc::Allocator;

/// Whether green and blue change places: at 9 to 15 bits without transparency.
pub fn swaps<A: Allocator>(checked: &Checked<A>) -> bool
    ensures { result ≡ swaps checked.now.configuration }
{
    let depth = checked.depth();
    if checked.config().extra_plane {
        return false;
    }
    8 < depth && depth < 16
}

/// The plane that is taken for green.
pub fn green_of<A: Allocator>(checked: &Checked<A>) -> u32
    ensures value { result ≡ green_of checked.now.configuration }
    ensures least { 1 ≤ result }
    ensures most { result ≤ 2 }
{
    if swaps(checked) { 2 } else { 1 }
}

/// The plane that is taken for blue.
pub fn blue_of<A: Allocator>(checked: &Checked<A>) -> u32
    ensures value { result ≡ blue_of checked.now.configuration }
    ensures least { 1 ≤ result }
    ensures most { result ≤ 2 }
{
    if swaps(checked) { 1 } else { 2 }
}
