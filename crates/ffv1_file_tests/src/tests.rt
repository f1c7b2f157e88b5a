//! Tests of readers, writers, AVI, EBML and texts, by what each crate makes public.

mod avi;
mod ebml;
mod sum;
mod wire;
mod y4m;
