// SPDX-License-Identifier: MIT OR Apache-2.0
//! Prediction, contexts and folded sample differences of FFV1 (RFC 9043, 3.3 to 3.5, 3.8 and 4.1).
//!
//! A `QuantSet` is a quantisation table set, made by its runs (`QuantSet::from_runs`) or one of two
//! of this codec's own (`QuantSet::small`, `QuantSet::large`). Of the samples around one sample
//! (`Around`), `predict` makes the prediction and `context` the number of the context and whether
//! the sign is flipped. `residual_of` makes the residual that an encoder takes, and `sample_from`
//! the sample again; `fold` and `unfold` are the same without the flip.
//!
//! ```text
//! let (size, flip) = context(&set, &around);
//! let residual = residual_of(predict(&around), flip, sample, 8);
//! let again = sample_from(predict(&around), flip, residual, 8);
//! ```
//!
//! Samples of more than 9 bits have `residual_of_bits` and `sample_of_bits`, and those of 16 bits
//! `predict_signed`, since they are predicted by signed numbers.
//!
//! Samples of up to 17 bits lie in a `WideAround`: `wide_residual` and `wide_sample` have the
//! prediction in themselves, and `low_around` gives what has the context of the place.
//!
//! The test `plane::example` runs these lines. `laws` has what follows from the definitions.
#![tactic(auto)]

pub mod early;
pub mod fault;
pub mod lanes;
pub mod laws;
pub mod of_bits;
pub mod prediction;
pub mod quantisation;
pub mod residual;
mod table;
pub mod wide;

pub use early::{BLOCK, BlockRows, Early, sample_signed};
pub use fault::Fault;
pub use lanes::{AroundLanes, choose_lanes, choose_lanes_of_bits};
pub use of_bits::{residual_of_bits, sample_of_bits};
pub use prediction::{Around, predict, predict_late, predict_signed};
pub use quantisation::{
    QuantSet, SetLanes, context, context_by_three_tables, early_sum, late_context,
};
pub use residual::{fold, residual_of, sample_from, unfold};
pub use wide::{WideAround, low_around, wide_residual, wide_sample};
