//! Writers that can be sent to a place.

ghost use Rattle.std.specs.Prelude.{◌≡◌, is_ok};
ghost use Rattle.ffv1_wire.specs.Failures.{Counted};
ghost use Rattle.ffv1_wire.specs.Seeks.{Going, GoesTo, Telling, TellsPlace};

use crate::Failed;
use crate::write::{ByteOut, ToWrite};
use std::io::{Seek, SeekFrom, Write};

/// A writer that can be asked where it stands, and be sent to a place, in bytes from its begin.
pub trait SeekOut: ByteOut {
    /// The writer was asked where it stands: what it was before, the place that it told, or that it
    /// could not tell it, and what it is after.
    ghost tells: { Telling Self };

    /// The writer was sent to a place: what it was before, the place, whether it went there, and
    /// what it is after.
    ghost goes: { Going Self };

    /// Where the writer stands, if it can tell. That it can't is not counted as a failure.
    fn position(&mut self) -> Option<u64>
        ensures told { tells self.old result self.new }
        ensures counted { Self.failures self.new ≡ Self.failures self.old };

    /// Goes to a place, and answers whether it did. That it can't is not counted as a failure.
    fn go_to(&mut self, place: u64) -> bool
        ensures went { goes self.old place result self.new }
        ensures counted { Self.failures self.new ≡ Self.failures self.old };

    /// Goes to a place from which it came. That it can't is a failure, and counted.
    fn go_back(&mut self, place: u64) -> Result<(), Failed>
        ensures went { goes self.old place (is_ok result) self.new }
        ensures counted { Counted (Self.failures self.old) (Self.failures self.new) result };
}

impl<W: Write + Seek> SeekOut for ToWrite<W> {
    ghost tells = { λ s place t.
        TellsPlace (W.stream_position s.inner) place (W.stream_position t.inner) };

    ghost goes = { λ s place done t.
        GoesTo (W.stream_position s.inner) place done (W.stream_position t.inner) };

    fn position(&mut self) -> Option<u64> {
        self.inner.stream_position().ok()
    }

    fn go_to(&mut self, place: u64) -> bool {
        self.inner.seek(SeekFrom::Start(place)).is_ok()
    }

    fn go_back(&mut self, place: u64) -> Result<(), Failed> {
        if self.inner.seek(SeekFrom::Start(place)).is_ok() {
            return Ok(());
        }
        self.failures = self.failures.wrapping_add(1);
        Err(Failed)
    }
}
