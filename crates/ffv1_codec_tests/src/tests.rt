//! Tests of the codec's crates, from the range coder to frames, by what each makes public.

mod decoded;
mod depths;
mod encoded;
mod endings;
mod frames;
mod lanes;
mod line;
mod overlaps;
mod pictures;
mod plane;
mod range;
mod rct;
mod record;
mod rice;
mod rice_frames;
mod slice;
mod wide;
