// SPDX-License-Identifier: MIT OR Apache-2.0
//! Tests of readers, writers, AVI, EBML and texts, by what each crate makes public.
#![tactic(auto)]

#[cfg(test)]
mod tests;
