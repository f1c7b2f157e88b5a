//! Readers, writers and sinks.

mod bytes;
mod calls;
mod patches;
