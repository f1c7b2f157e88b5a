//! What an encoder's interval has beside its bytes, and how a decision narrows it.

ghost use Rattle.std.specs.Prelude.{◌≡◌, ℕ, ◌≤◌, ◌<◌, ◌+◌, ◌/◌, ◌%◌, ◌*◌, List, length, OnOk};
ghost use Rattle.std.specs.Prelude.{OnErr};
ghost use Rattle.std.specs.Vec.{vec_capacity, vec_len};
ghost use Rattle.ffv1_range.specs.Interval.{Interval, narrow, part};
ghost use Rattle.ffv1_range.specs.Internal.Registers.{interval_from, IsWriting, IsChosen};

use crate::encoder::{FIRST_WIDTH, emit};
use std::alloc::{AllocError, Allocator};

/// What an encoder's interval has beside its bytes while decisions are written. A symbol is written
/// by either kind: by a `Span`, which gives out each byte at once, or by a `Marked`, which holds
/// some back.
pub(crate) trait Registers {
    // The interval that they are with these bytes.
    ghost interval: { List ℕ → Self → Interval };

    // What holds of them beside these bytes.
    ghost are_sound: { List ℕ → Self → Type 0 };

    /// Narrows the interval by a decision. If a growth is refused, nothing is left of the bytes.
    fn narrow<A: Allocator>(
        &mut self,
        bytes: &mut Vec<u8, A>,
        state: u8,
        bit: bool,
    ) -> Result<(), AllocError>
        requires sound { are_sound bytes.old.items self.old }
        requires positive { 0 < state }
        ensures ok { OnOk result (interval bytes.new.items self.new ≡
            narrow (interval bytes.old.items self.old) state bit) }
        ensures refused { OnErr result ((interval bytes.old.items self.old).count <
            (narrow (interval bytes.old.items self.old) state bit).count) }
        ensures full { OnErr result (vec_capacity bytes.old < vec_len bytes.old + 4) }
        ensures sound { are_sound bytes.new.items self.new }
        ensures grown { OnOk result (length bytes.old.items ≤ length bytes.new.items) };
}

/// What an encoder's interval has beside its bytes: its low end, two places below them, and its
/// width. A symbol is written with a copy of it.
#[derive(Drop)]
pub(crate) struct Span {
    pub(crate) low: u32,
    pub(crate) width: u32,
}

/// The part of a decision.
#[inline(always)]
fn part_of(bytes: &[u8], low: u32, width: u32, state: u8, bit: bool) -> (u32, u32)
    requires writing { IsWriting bytes.now low width }
    requires positive { 0 < state }
    ensures interval { interval_from bytes.now result.0 result.1 ≡
        part (interval_from bytes.now low width) state bit }
    ensures chosen { IsChosen bytes.now result.0 result.1 }
{
    let upper = width * u32::from(state) / 256;
    let lower = width - upper;
    if bit {
        return (low + lower, upper);
    }
    (low, lower)
}

impl Registers for Span {
    ghost use Rattle.ffv1_range.specs.Internal.Registers.{interval_from, IsWriting};

    ghost interval = { λ bytes s. interval_from bytes s.low s.width };

    ghost are_sound = { λ bytes s. IsWriting bytes s.low s.width };

    #[inline(always)]
    fn narrow<A: Allocator>(
        &mut self,
        bytes: &mut Vec<u8, A>,
        state: u8,
        bit: bool,
    ) -> Result<(), AllocError> {
        let (low, width) = part_of(bytes, self.low, self.width, state, bit);
        if width >= 256 {
            self.low = low;
            self.width = width;
            return Ok(());
        }
        match emit(bytes, low / 256) {
            Ok(()) => {
                self.low = low % 256 * 256;
                self.width = width * 256;
                Ok(())
            }
            Err(refused) => {
                bytes.clear();
                self.low = 0;
                self.width = FIRST_WIDTH;
                Err(refused)
            }
        }
    }
}
