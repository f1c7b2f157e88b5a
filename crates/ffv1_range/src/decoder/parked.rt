//! Decoders without their bytes.

ghost use Rattle.std.specs.Prelude.{◌≡◌, ◌-◌, ◌^◌, ℕ, min, Bool, List, IsTrue, IsFalse};
ghost use Rattle.ffv1_range.specs.Interval.{Interval, narrow};
ghost use Rattle.ffv1_range.specs.Codes.{AreBytes, Inside};
ghost use Rattle.ffv1_range.specs.Ending.{IsEnded, bits_place};
ghost use Rattle.ffv1_range.specs.Counts.{total};
ghost use Rattle.ffv1_range.specs.Reading.{At, resumed};

use crate::decoder::RangeDecoder;
use crate::encoder::SENTINEL_STATE;
use crate::tally::Tally;
use std::marker::Model;

/// A decoder that has let its bytes go. It is seen as a `Pause`.
#[derive(Drop)]
pub struct Parked {
    pub(crate) width: u32,
    pub(crate) gap: u32,
    pub(crate) renormalisations: u64,
    pub(crate) ones: u64,
    pub(crate) zeros: u64,
}

impl Model for Parked {
    ghost use Rattle.ffv1_range.specs.Reading.{Pause};
    ghost use Rattle.ffv1_range.specs.Internal.Registers.{IsReading};

    ghost Value = { Pause };

    ghost view = { λ p. record {
      width = p.width;
      gap = p.gap;
      renormalisations = p.renormalisations;
      counts = record { ones = p.ones; zeros = p.zeros };
    } };

    ghost invariant = { λ p. IsReading p.width p.gap };
}

impl Parked {
    /// How many decisions were read, at most 2^64 - 1.
    pub fn taken(&self) -> u64
        ensures { result ≡ total self.now.counts }
    {
        self.ones.saturating_add(self.zeros)
    }

    /// How many ones, zeros and renormalisations there were, each at most 2^64 - 1.
    pub fn tally(&self) -> Tally
        ensures ones { result.ones ≡ self.now.counts.ones }
        ensures zeros { result.zeros ≡ self.now.counts.zeros }
        ensures renormalisations { result.renormalisations ≡ self.now.renormalisations }
    {
        Tally {
            ones: self.ones,
            zeros: self.zeros,
            renormalisations: self.renormalisations,
        }
    }

    /// Whether its bytes, which these are, end where it stands: its next decision by state 129
    /// would be 0, and it would then have renormalised exactly once less than there are bytes (RFC
    /// 9043, 3.8.1.1.1). That decision is looked at, and neither read nor counted.
    pub fn is_ended(&self, bytes: &[u8]) -> bool
        ensures yes { IsTrue result → (i : Interval) → At (resumed self.now bytes.now) i →
            IsEnded bytes.now i }
        ensures no { IsFalse result → (i : Interval) → At (resumed self.now bytes.now) i →
            IsEnded bytes.now i → ⊥ }
    {
        let part = self.width * u32::from(SENTINEL_STATE) / 256;
        if self.gap <= part {
            return false;
        }
        let left = (bytes.len() as u64).saturating_sub(self.renormalisations);
        let last = if self.width - part < 256 { 2 } else { 1 };
        left == last
    }

    /// The byte at which bits begin behind the next decision by state 129, whichever it is (RFC
    /// 9043, 3.8.1.1.1): the one that a coder reads last. It is at most 2^64 - 1. That decision is
    /// looked at, and neither read nor counted.
    pub fn bits_place(&self) -> u64
        ensures { (bytes : List ℕ) (i : Interval) → AreBytes bytes →
            At (resumed self.now bytes) i → (bit : Bool) × Inside bytes (narrow i 129 bit)
            × (result ≡ min (bits_place (narrow i 129 bit)) (2 ^ 64 - 1)) }
    {
        let part = self.width * u32::from(SENTINEL_STATE) / 256;
        let place = self.renormalisations.saturating_add(1);
        if self.gap <= part {
            if part < 256 {
                return place.saturating_add(1);
            }
            return place;
        }
        if self.width - part < 256 {
            return place.saturating_add(1);
        }
        place
    }

    /// Goes on with bytes. On the bytes that it had, the decoder is as if it had never been parked;
    /// on others it is some decoder of theirs.
    #[inline(always)]
    pub fn wake<'a>(self, bytes: &'a [u8]) -> RangeDecoder<'a>
        ensures { result ≡ resumed self bytes.now }
    {
        RangeDecoder {
            bytes,
            width: self.width,
            gap: self.gap,
            renormalisations: self.renormalisations,
            ones: self.ones,
            zeros: self.zeros,
        }
    }
}
