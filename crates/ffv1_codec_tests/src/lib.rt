// SPDX-License-Identifier: MIT OR Apache-2.0
//! Tests of the codec's crates, from the range coder to frames, by what each makes public.
#![tactic(auto)]

#[cfg(test)]
mod tests;
