//! Faults that are told of a file up to where its frames begin.

ghost use Rattle.std.specs.Prelude.{◌≡◌, ◌≤◌, IfErr, IfOk, List, [], Some};
ghost use Rattle.std.specs.Vec.{vec_capacity};
ghost use Rattle.ffv1_reads.specs.declared.fault.FileFault.{FileFault};
ghost use Rattle.ffv1_matroska.specs.SalvageTold.{told_too};
ghost use Rattle.ffv1_matroska.specs.Salvaged.{most_told, told_more};
ghost use Rattle.ffv1_matroska.specs.Internal.{items_after};
ghost use Rattle.ffv1_matroska.specs.declared.told.ToldFault.{ToldFault};

use ffv1_reads::FileFault;
use std::alloc::{AllocError, Allocator, Global};

/// The most faults that are told.
const MOST_TOLD: usize = 16;

/// A fault that is told.
#[derive(Clone, Copy)]
pub struct ToldFault {
    /// The fault.
    pub fault: FileFault,
    /// How many bytes of the Segment come before the element at fault; None if that is the header
    /// of EBML, with which the file begins.
    pub position: Option<u64>,
}

/// The faults that are told of a file up to where its frames begin, at most sixteen, and what their
/// places are counted from.
#[derive(Drop)]
pub struct ToldFaults<A: Allocator = Global> {
    /// The faults, as they come.
    pub faults: Vec<ToldFault, A>,
    /// The number of bytes of the file before the first element of its Segment; no greater than
    /// 2^64 - 1.
    pub data: u64,
    /// The number of bytes from there on to where the frames begin.
    pub begun: u64,
}

impl<A: Allocator> ToldFaults<A> {
    /// None, with room for all that may be told. `AllocError` if memory for that is refused.
    pub fn new(alloc: A) -> Result<ToldFaults<A>, AllocError>
        ensures none { IfOk result (λ t. t.faults.items ≡ []) }
        ensures room { IfOk result (λ t. most_told ≤ vec_capacity t.faults) }
        ensures start { IfOk result (λ t. (t.data ≡ 0) × (t.begun ≡ 0)) }
    {
        let mut faults = Vec::new(alloc);
        faults.reserve_exact(MOST_TOLD)?;
        Ok(ToldFaults {
            faults,
            data: 0,
            begun: 0,
        })
    }
}

/// Tells a fault, if there is one, of the element at this position. If as many are told as may be,
/// the fault is the answer.
pub(crate) fn tell<A: Allocator>(
    faults: &mut Vec<ToldFault, A>,
    fault: Option<FileFault>,
    position: Option<u64>,
) -> Result<(), FileFault>
    requires room { most_told ≤ vec_capacity faults.old }
    ensures told { items_after result faults.new.items
        ≡ told_more faults.old.items fault position }
    ensures capacity { vec_capacity faults.new ≡ vec_capacity faults.old }
    ensures same { IfErr result (λ f. fault ≡ Some f) }
    ensures too { faults.new.items ≡ told_too faults.old.items fault position }
{
    let Some(fault) = fault else {
        return Ok(());
    };
    if faults.len() >= MOST_TOLD {
        return Err(fault);
    }
    faults.push_reserved(ToldFault { fault, position });
    Ok(())
}

/// Tells the other fault of an element at this position that is refused, if it has one, and if as
/// many may be told.
pub(crate) fn tell_pending<A: Allocator>(
    faults: &mut Vec<ToldFault, A>,
    other: Option<FileFault>,
    position: Option<u64>,
)
    requires room { most_told ≤ vec_capacity faults.old }
    ensures too { faults.new.items ≡ told_too faults.old.items other position }
    ensures capacity { vec_capacity faults.new ≡ vec_capacity faults.old }
{
    match tell(faults, other, position) {
        Ok(()) => {}
        Err(_) => {}
    }
}
