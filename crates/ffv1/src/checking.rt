//! Checks a file, and prints what its frames take, or one line of it.

ghost use Rattle.std.specs.Prelude.{◌≡◌, Err, IfErr, IfOk, None, Ok, Some, false};
ghost use Rattle.ffv1_wire.specs.Passage.{passage};
ghost use Rattle.ffv1.specs.Opened.{ChecksFile, ChecksIn, first_judged, judged, verdict_of};
ghost use Rattle.ffv1_orders.specs.Orders.{is_of_frames};
ghost use Rattle.ffv1_orders.specs.Noted.{noted};
ghost use Rattle.ffv1_orders.specs.Statuses.{IsFault, IsLookingRefusal};
ghost use Rattle.ffv1_orders.specs.declared.refusal.Refusal.TheVariants as refusal;
ghost use Rattle.ffv1_unpack.specs.Check.{IsCheckFault};
ghost use Rattle.ffv1_video.specs.declared.fault.Fault.{Fault};
ghost use Rattle.ffv1_video.specs.declared.profile.Profile.TheVariants as profile;

use crate::streams::check_stream;
use ffv1_engine::Fault;
use ffv1_files::Notes;
use ffv1_orders::{Checking, LastLines, Met, Noted, Opens, Refusal, Tells, noted};
use ffv1_wire::{ByteOut, ToWrite};
use std::alloc::Global;
use std::io;

/// What a check answered of frames and of the file, without what is noted of it.
fn verdict_of(answer: Result<(Option<Fault>, Notes), Fault>) -> Result<Option<Fault>, Fault>
    ensures value { result ≡ verdict_of answer }
    ensures own { IfErr answer (IsCheckFault profile.Wide) →
        IfErr result (IsCheckFault profile.Wide) }
{
    match answer {
        Ok((first, _)) => Ok(first),
        Err(fault) => Err(fault),
    }
}

/// What becomes of an order of which all frames were judged, and this is noted of the file: the
/// first fault is its own, and if there is none, a note if it is to be a fault.
pub(crate) fn judged(
    first: Option<Fault>,
    notes: Notes,
    notes_as_faults: bool,
) -> Result<Notes, Refusal>
    ensures value { result ≡ first_judged notes_as_faults first notes }
    ensures sound { first ≡ None → result ≡ noted notes_as_faults (Ok notes) }
    ensures refused { (f : Fault) → first ≡ Some f → result ≡ Err (refusal.Judged f notes) }
    ensures looking { IfErr result IsLookingRefusal }
{
    match first {
        Some(fault) => Err(Refusal::Judged(fault, notes)),
        None => noted(notes_as_faults, Ok(notes)),
    }
}

/// What becomes of an order by what its check answered: a fault that ended it, the first fault of
/// a frame that is refused, and a note that is to be a fault are its own.
fn outcome_of(
    answer: Result<(Option<Fault>, Notes), Fault>,
    notes_as_faults: bool,
) -> Result<Notes, Refusal>
    ensures value { result ≡ judged notes_as_faults answer }
    ensures fault { IfErr result IsLookingRefusal }
    ensures own { notes_as_faults ≡ false → IfErr answer (IsCheckFault profile.Wide) →
        IfOk answer (λ a. a.0 ≡ None) → IfErr result (IsFault (IsCheckFault profile.Wide)) }
{
    match answer {
        Ok((first, notes)) => judged(first, notes, notes_as_faults),
        Err(fault) => Err(Refusal::Fault(fault)),
    }
}

/// Decodes frames of a file, and writes what each took, and with `place` where one is refused; with
/// `all` also those after one that is refused. Answers the first fault of those, and
/// what is noted of the file.
fn write_check<O: Opens, W: ByteOut>(
    alloc: Global,
    opener: &O,
    input: &str,
    checking: Checking,
    writer: &mut W,
) -> Result<(Option<Fault>, Notes), Fault>
    ensures checks { ChecksFile (O.opens opener.now input.now) (O.misses opener.now input.now)
        O.Reader.remaining O.Reader.failures checking.all checking.place checking.range
        (passage W.contents W.failures writer.old writer.new) result }
    ensures none { checking.all ≡ false → IfOk result (λ answer. answer.0 ≡ None) }
    ensures own { IfErr result (IsCheckFault profile.Wide) }
{
    let mut reader = opener.open(input, checking.progress)?;
    let Checking {
        all,
        place,
        range,
        ..
    } = checking;
    check_stream(alloc, &mut reader, writer, all, place, range)
}

/// Decodes frames of a file, and tells one line of it: `Write` if that cannot be printed,
/// `OutOfMemory` if memory of it is refused.
fn run_verdict<O: Opens + Tells>(
    alloc: Global,
    opener: &O,
    input: &str,
    checking: Checking,
    met: &Met,
) -> Result<Notes, Refusal>
    ensures fault { IfErr result IsLookingRefusal }
    ensures own { checking.all ≡ false → checking.notes_as_faults ≡ false →
        IfErr result (IsFault (IsCheckFault profile.Wide)) }
    ensures checks { is_of_frames checking.told ≡ false → ChecksIn (O.opens opener.now input.now)
        (O.misses opener.now input.now) O.Reader.remaining O.Reader.failures
        (O.tells opener.now input.now) checking result }
{
    let located = Checking {
        place: true,
        ..checking
    };
    let mut lines = LastLines::new(met);
    let answer = write_check(alloc, opener, input, located, &mut lines);
    opener.tell(alloc, input, &lines, checking, verdict_of(answer))?;
    outcome_of(answer, checking.notes_as_faults)
}

/// Decodes frames of a file, and prints what each took, and with `place` where one is refused;
/// with `all` also those after one that is refused; or prints one line of the file.
pub fn run_check<O: Opens + Tells>(
    rt: &impl Print,
    alloc: Global,
    opener: &O,
    input: &str,
    checking: Checking,
    met: &Met,
) -> Result<Notes, Refusal>
    ensures fault { IfErr result IsLookingRefusal }
    ensures own { checking.all ≡ false → checking.notes_as_faults ≡ false →
        IfErr result (IsFault (IsCheckFault profile.Wide)) }
    ensures checks { ChecksIn (O.opens opener.now input.now) (O.misses opener.now input.now)
        O.Reader.remaining O.Reader.failures (O.tells opener.now input.now) checking result }
{
    if checking.told.is_of_frames() {
        let mut writer = ToWrite::new(Noted::new(met, io::writer(rt)));
        let answer = write_check(alloc, opener, input, checking, &mut writer);
        return outcome_of(answer, checking.notes_as_faults);
    }
    run_verdict(alloc, opener, input, checking, met)
}
