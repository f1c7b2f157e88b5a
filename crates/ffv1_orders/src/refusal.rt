//! Why an order is not done.

ghost use Rattle.std.specs.Prelude.{◌≡◌};
ghost use Rattle.ffv1_orders.specs.declared.refusal.Refusal.TheVariants as refusal;
ghost use Rattle.ffv1_video.specs.declared.fault.Fault.TheVariants as fault;

use ffv1_files::Notes;
use ffv1_video::Fault;
use std::alloc::AllocError;
use thiserror::Error;

/// Why an order is not done.
#[derive(Clone, Copy, Debug, PartialEq, Eq, Error)]
pub enum Refusal {
    /// The engine refused it.
    #[error("{0}")]
    Fault(Fault),
    /// IN and OUT are one file, by its device and number.
    #[error("IN and OUT are one file")]
    OneFile,
    /// A file is there, which `--no-clobber` keeps.
    #[error("OUT exists")]
    Exists,
    /// The frame with this number, counted from 0, has another MD5 than a list, or the list or the
    /// file has no such frame.
    #[error("89 Differs")]
    Differs(u64),
    /// A list of MD5s is none from this line on, counted from 1.
    #[error("66 List")]
    List(u64),
    /// A file was read to its end, and this is noted of it; but frames of it were refused, or it
    /// had faults of its own, the first of which this is.
    #[error("{0}")]
    Judged(Fault, Notes),
    /// This is noted of a file, and the order makes a note a fault.
    #[error("notes")]
    Notes(Notes),
}

impl From<Fault> for Refusal {
    ghost from_gives = { λ f r. r ≡ refusal.Fault f };

    fn from(fault: Fault) -> Refusal {
        Refusal::Fault(fault)
    }
}

impl From<AllocError> for Refusal {
    ghost from_gives = { λ _ r. r ≡ refusal.Fault fault.OutOfMemory };

    fn from(_: AllocError) -> Refusal {
        Refusal::Fault(Fault::OutOfMemory)
    }
}
