//! Opens files that may be damaged before their first frame.

ghost use Rattle.std.specs.Prelude.{◌≡◌, ◌≤◌, [], Option, None, false, true, IfErr, IfOk};
ghost use Rattle.std.specs.Vec.{vec_capacity};
ghost use Rattle.ffv1_reads.specs.Ends.{AnswersOrFaults};
ghost use Rattle.ffv1_reads.specs.First.{bytes_with, passage_with};
ghost use Rattle.ffv1_reads.specs.Known.{Known};
ghost use Rattle.ffv1_reads.specs.Offsets.{offset_after};
ghost use Rattle.ffv1_reads.specs.Room.{RoomRead};
ghost use Rattle.ffv1_reads.specs.declared.fault.FileFault.TheVariants as fault;
ghost use Rattle.ffv1_matroska.specs.Internal.{salvaged_kept};
ghost use Rattle.ffv1_matroska.specs.Offsets.{OffsetOpened};
ghost use Rattle.ffv1_matroska.specs.Opened.{open_read};
ghost use Rattle.ffv1_matroska.specs.Readers.{EndsThere, HasEnded, is_opening_fault, opened_at};
ghost use Rattle.ffv1_matroska.specs.SalvageStops.{FileStops};
ghost use Rattle.ffv1_matroska.specs.SalvageTold.{TellsRead};
ghost use Rattle.ffv1_matroska.specs.Salvaged.{NeverBegins, data_at, most_told, salvage_read};
ghost use Rattle.ffv1_matroska.specs.Scales.{tick_in};
ghost use Rattle.ffv1_matroska.specs.Times.{times_begun};

use crate::reader::MatroskaReader;
use crate::salvage::{Noted, salvage_opening};
use crate::times::times_begun;
use crate::told::ToldFaults;
use ffv1_reads::FileFault;
use ffv1_wire::ByteIn;
use std::alloc::Allocator;

impl<A: Allocator + Copy> MatroskaReader<A> {
    /// Reads a file that may be damaged up to where its frames begin, as `open_located` does, and
    /// goes on after two kinds of faults, which are told: `Checksum` of the header of EBML or of an
    /// element of the Segment, whose content is then taken as it is; and `BadElement` of an element
    /// of known size that may not stand in a Segment, which is then passed. At most sixteen are
    /// told. The element is said by its Segment position (RFC 9559, 16.3), which is counted from
    /// `data`. The first byte of the file may have been read before.
    ///
    /// If nothing is told, all is as of `open_located`: what it answers, when frames come, and the
    /// offset of a fault. Else nothing is told of when frames come.
    ///
    /// Any other fault is the answer, as of `open_located`, and the one that comes after sixteen
    /// that are told. `offset` is then the number of bytes before the element that it ends at; no
    /// greater than 2^64 - 1. `told` has all that is told of the bytes that were read: the faults
    /// that were told before, and the one that is told of the element at fault, if it has one. So
    /// it is if a read failed, `Read`, or if memory was refused, `OutOfMemory`, of an element that
    /// was not read whole: of that it may be told that it may not stand there. `data` is 0 if the
    /// Segment was not entered. `told` has room for sixteen, which it keeps; what it had before is
    /// dropped.
    pub fn open_salvaged<R: ByteIn>(
        alloc: A,
        first: Option<u8>,
        input: &mut R,
        offset: &mut u64,
        told: &mut ToldFaults<A>,
    ) -> Result<MatroskaReader<A>, FileFault>
        requires room { most_told ≤ vec_capacity told.old.faults }
        ensures answer { AnswersOrFaults fault.NoTracks NeverBegins
            (λ r. salvaged_kept (opened_at r) told.new.begun told.new.faults.items) salvage_read
            (passage_with first R.remaining R.failures input.old input.new) result }
        ensures sound { IfOk result (λ r. r.fault ≡ None) }
        ensures own { IfErr result (λ f. is_opening_fault f ≡ true) }
        ensures room { IfOk result (λ r. RoomRead (bytes_with first (R.remaining input.old))
            (R.remaining input.new) 0 r.room) }
        ensures data { IfOk result (λ r. Known (bytes_with first (R.remaining input.old))
            (R.remaining input.new) (λ text rest. told.new.data ≡ offset_after 0 (data_at text))) }
        ensures offset { IfOk result (λ r. r.offset ≡ offset_after told.new.data told.new.begun) }
        ensures end { IfOk result EndsThere }
        ensures uncued { IfOk result (λ r. r.cued ≡ false) }
        ensures held { most_told ≤ vec_capacity told.new.faults }
        ensures told { IfErr result (λ f. TellsRead (bytes_with first (R.remaining input.old))
            (R.remaining input.new) told.new.data told.new.faults.items) }
        ensures stopped { IfErr result (λ f. FileStops (bytes_with first (R.remaining input.old))
            (R.remaining input.new) f offset.new) }
        ensures opens { told.new.faults.items ≡ [] → AnswersOrFaults fault.NoTracks HasEnded
            opened_at open_read (passage_with first R.remaining R.failures input.old input.new)
            result }
        ensures plain { told.new.faults.items ≡ [] → OffsetOpened
            (passage_with first R.remaining R.failures input.old input.new) result offset.new }
        ensures timed { told.new.faults.items ≡ [] → IfOk result (λ r. Known
            (bytes_with first (R.remaining input.old)) (R.remaining input.new)
            (λ text rest. r.times ≡ times_begun (tick_in text))) }
        ensures untimed { (told.new.faults.items ≡ [] → ⊥) → IfOk result (λ r.
            r.times ≡ times_begun 0) }
    {
        let mut content = Vec::new(alloc);
        let mut config_record = Vec::new(alloc);
        let mut noted = Noted {
            offset: 0,
            tick: 0,
            other: None,
        };
        let read = salvage_opening(
            first,
            input,
            told,
            &mut content,
            &mut config_record,
            &mut noted,
        );
        *offset = noted.offset;
        let (segment, numbers, place) = read?;
        let tick = if told.faults.len() == 0 {
            noted.tick
        } else {
            0
        };
        Ok(MatroskaReader::before_frames(
            segment,
            numbers,
            place,
            config_record,
            *offset,
            times_begun(tick),
        ))
    }
}
