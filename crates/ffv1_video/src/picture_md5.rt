//! The MD5 of a picture.

ghost use Rattle.std.specs.Prelude.{◌≡◌, ℕ, ◌++◌, [], ◌∷◌, List, length, true};
ghost use Rattle.std.specs.List.{concat};
ghost use Rattle.md5.specs.Md5.{md5};
ghost use Rattle.ffv1_range.specs.Counts.{saturated};
ghost use Rattle.ffv1_frame.specs.Picture.{planes_of};
ghost use Rattle.ffv1_video.specs.RawPicture.{pixels, raw_bytes};
ghost use Rattle.ffv1_video.specs.RawPicture.{AreEven};
ghost use Rattle.ffv1_video.specs.Internal.RawPicture.{IsOf};

use md5::{Digest, Md5};
use std::alloc::Allocator;

/// Some bytes: what their MD5 is made from, and how many they are, at most 2^64 - 1.
#[derive(Drop)]
pub(crate) struct Hashed {
    pub(crate) hasher: Md5,
    pub(crate) size: u64,
}

/// More bytes after them.
fn add(hashed: &mut Hashed, bytes: &[u8])
    ensures { (m : List ℕ) → IsOf hashed.old m → IsOf hashed.new (m ++ bytes.now) }
{
    hashed.hasher.update(bytes);
    hashed.size = hashed.size.saturating_add(bytes.len() as u64);
}

/// The bytes of these planes after them, plane after plane.
fn add_planes<A: Allocator>(hashed: &mut Hashed, planes: &[Vec<u8, A>])
    ensures { (m : List ℕ) → IsOf hashed.old m →
        IsOf hashed.new (m ++ concat (planes_of planes.now)) }
{
    for plane in planes {
        add(hashed, plane);
    }
}

/// A sample of each of three planes after them, place after place.
fn add_three(hashed: &mut Hashed, red: &[u8], green: &[u8], blue: &[u8])
    requires green { length green.now ≡ length red.now }
    requires blue { length blue.now ≡ length red.now }
    ensures { (m : List ℕ) → IsOf hashed.old m →
        IsOf hashed.new (m ++ pixels (red.now ∷ green.now ∷ blue.now ∷ [])) }
{
    for at in 0..red.len() {
        add(hashed, &[red[at], green[at], blue[at]]);
    }
}

/// A sample of each of four planes after them, place after place.
fn add_four(hashed: &mut Hashed, red: &[u8], green: &[u8], blue: &[u8], extra: &[u8])
    requires green { length green.now ≡ length red.now }
    requires blue { length blue.now ≡ length red.now }
    requires extra { length extra.now ≡ length red.now }
    ensures { (m : List ℕ) → IsOf hashed.old m →
        IsOf hashed.new (m ++ pixels (red.now ∷ green.now ∷ blue.now ∷ extra.now ∷ [])) }
{
    for at in 0..red.len() {
        add(hashed, &[red[at], green[at], blue[at], extra[at]]);
    }
}

/// A sample of each of three or four planes after them, place after place.
fn add_pixels<A: Allocator>(hashed: &mut Hashed, planes: &[Vec<u8, A>])
    requires { AreEven (planes_of planes.now) }
    ensures { (m : List ℕ) → IsOf hashed.old m →
        IsOf hashed.new (m ++ pixels (planes_of planes.now)) }
{
    if planes.len() == 3 {
        add_three(hashed, &planes[0], &planes[1], &planes[2]);
    } else {
        add_four(hashed, &planes[0], &planes[1], &planes[2], &planes[3]);
    }
}

/// The bytes of a picture.
fn hashed_picture<A: Allocator>(rct: bool, depth: u32, planes: &[Vec<u8, A>]) -> Hashed
    requires { rct ≡ true → AreEven (planes_of planes.now) }
    ensures { IsOf result (raw_bytes rct depth (planes_of planes.now)) }
{
    let mut hashed = Hashed {
        hasher: Md5::new(),
        size: 0,
    };
    if !rct {
        add_planes(&mut hashed, planes);
    } else if depth == 8 {
        add_pixels(&mut hashed, planes);
    } else {
        add_planes(&mut hashed, &planes[1..3]);
        add_planes(&mut hashed, &planes[..1]);
        add_planes(&mut hashed, &planes[3..]);
    }
    hashed
}

/// How many bytes a picture has, at most 2^64 - 1, and their MD5.
pub fn picture_md5<A: Allocator>(rct: bool, depth: u32, planes: &[Vec<u8, A>]) -> (u64, [u8; 16])
    requires { rct ≡ true → AreEven (planes_of planes.now) }
    ensures size { result.0 ≡ saturated (length (raw_bytes rct depth (planes_of planes.now))) }
    ensures hash { result.1 ≡ md5 (raw_bytes rct depth (planes_of planes.now)) }
{
    let hashed = hashed_picture(rct, depth, planes);
    let Hashed { hasher, size } = hashed;
    (size, hasher.finalize())
}
