//! The first picture of an input, if it is mono.

ghost use Rattle.std.specs.Prelude.{◌≡◌, ◌*◌, IfOk, IfErr, OnOk, true};
ghost use Rattle.ffv1_wire.specs.Passage.{passage};
ghost use Rattle.ffv1_pack.specs.Picture.{IsMono, ReadsMono, is_mono_fault, mono_of};
ghost use Rattle.ffv1_pack.specs.Internal.Picture.{RefusesMono};

use ffv1_video::Fault;
use ffv1_wire::ByteIn;
use ffv1_y4m::Y4mReader;
use std::alloc::{Allocator, Global};

/// A mono picture: its samples row by row.
#[derive(Drop)]
pub(crate) struct Mono<A: Allocator = Global> {
    pub(crate) width: u32,
    pub(crate) height: u32,
    pub(crate) samples: Vec<u8, A>,
}

/// Reads the first picture of a text, which is mono; what stands after it is not read.
#[tactic(auto, unfolding(crate::specs::Picture::mono_of))]
pub(crate) fn read_mono<R: ByteIn, A: Allocator + Copy>(
    alloc: A,
    input: &mut R,
) -> Result<Mono<A>, Fault>
    ensures ok { IfOk result
        (λ m. ReadsMono (R.remaining input.old) (R.remaining input.new)
        (record { width = m.width; height = m.height; samples = m.samples.items })) }
    ensures mono { IfOk result (λ m. IsMono (record {
      width = m.width;
      height = m.height;
      samples = m.samples.items;
    })) }
    ensures kept { OnOk result (R.failures input.new ≡ R.failures input.old) }
    ensures err { IfErr result
        (RefusesMono (passage R.remaining R.failures input.old input.new)) }
    ensures own { IfErr result (λ f. is_mono_fault f ≡ true) }
{
    let mut reader = Y4mReader::open(alloc, None, input)?;
    let head = *reader.head();
    if head.chroma_planes {
        return Err(Fault::Text(ffv1_y4m::Fault::Unsupported));
    }
    let mut planes = Vec::new(alloc);
    if !reader.next(input, &mut planes)? {
        return Err(Fault::NoFrames);
    }
    match planes.pop() {
        Some(samples) => Ok(Mono {
            width: head.width,
            height: head.height,
            samples,
        }),
        None => Err(Fault::NoFrames),
    }
}
