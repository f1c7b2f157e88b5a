// SPDX-License-Identifier: MIT OR Apache-2.0
//! Tests of commands and Matroska, by what each crate makes public, and of all together.
#![tactic(auto)]

#[cfg(test)]
mod tests;
