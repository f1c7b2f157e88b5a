//! Laws of samples and their bytes.

ghost use Rattle.std.specs.Prelude.{ℕ, List, ◌≡◌, ◌<◌, ◌+◌, ◌*◌, ◌^◌, ◌++◌, ◌==◌, length, take};
ghost use Rattle.std.specs.Prelude.{drop, true, false, slice_index};
ghost use Rattle.ffv1_samples.specs.Samples.{AreBelow, are_in_depth, bytes_of, sample_bytes};
ghost use Rattle.ffv1_samples.specs.Samples.{samples_of};

/// The samples of the bytes of samples are these samples, and the bytes of the samples of bytes are
/// these bytes if no half sample stands last.
pub fn samples_and_bytes_are_inverses()
    ensures samples { (depth : ℕ) (samples : List ℕ) →
        samples_of depth (bytes_of depth samples) ≡ samples }
    ensures bytes { (depth count : ℕ) (bytes : List ℕ) → AreBelow 256 bytes →
        length bytes ≡ sample_bytes depth * count →
        bytes_of depth (samples_of depth bytes) ≡ bytes }
{}

/// How long the bytes of samples are, and how many samples stand in bytes.
pub fn each_sample_takes_sample_bytes()
    ensures bytes { (depth : ℕ) (samples : List ℕ) →
        length (bytes_of depth samples) ≡ sample_bytes depth * length samples }
    ensures samples { (depth count : ℕ) (bytes : List ℕ) →
        length bytes ≡ sample_bytes depth * count → length (samples_of depth bytes) ≡ count }
{}

/// The bytes of samples below 2 ^ 16, at a depth of 8 below 2 ^ 8, are bytes, and samples of bytes
/// lie below 2 ^ 16.
pub fn bytes_and_samples_stay_in_range()
    ensures bytes { (depth : ℕ) (samples : List ℕ) →
        AreBelow (2 ^ (8 * sample_bytes depth)) samples → AreBelow 256 (bytes_of depth samples) }
    ensures samples { (depth : ℕ) (bytes : List ℕ) → AreBelow 256 bytes →
        AreBelow (2 ^ (8 * sample_bytes depth)) (samples_of depth bytes) }
{}

/// Samples one after the other are their bytes one after the other, and the first samples of bytes
/// are those of the first bytes.
pub fn samples_convert_part_by_part()
    ensures bytes { (depth : ℕ) (xs ys : List ℕ) →
        bytes_of depth (xs ++ ys) ≡ bytes_of depth xs ++ bytes_of depth ys }
    ensures samples { (depth count : ℕ) (xs ys : List ℕ) → length xs ≡ sample_bytes depth * count →
        samples_of depth (xs ++ ys) ≡ samples_of depth xs ++ samples_of depth ys }
    ensures first { (depth count : ℕ) (bytes : List ℕ) →
        samples_of depth (take (sample_bytes depth * count) bytes)
        ≡ take count (samples_of depth bytes) }
    ensures rest { (depth count : ℕ) (bytes : List ℕ) →
        samples_of depth (drop (sample_bytes depth * count) bytes)
        ≡ drop count (samples_of depth bytes) }
{}

/// A sample of two bytes, by its place.
pub fn sample_is_two_bytes_low_first()
    ensures { (depth place : ℕ) (bytes : List ℕ) → (depth == 8) ≡ false →
        2 * place + 1 < length bytes → slice_index (samples_of depth bytes) place
        ≡ slice_index bytes (2 * place) + 256 * slice_index bytes (2 * place + 1) }
{}

/// All samples of bytes are below 2 ^ depth if each one is, and only then.
pub fn depth_test_is_exact()
    ensures each { (depth : ℕ) (bytes : List ℕ) → AreBelow 256 bytes →
        are_in_depth depth bytes ≡ true → AreBelow (2 ^ depth) (samples_of depth bytes) }
    ensures all { (depth : ℕ) (bytes : List ℕ) → AreBelow (2 ^ depth) (samples_of depth bytes) →
        are_in_depth depth bytes ≡ true }
{}
