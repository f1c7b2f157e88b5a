//! Judges what is asked of a video before memory is taken for it.

ghost use Rattle.std.specs.Prelude.{◌≡◌, ◌≢◌, ◌≤◌, ◌∷◌, [], IfErr, OnOk};
ghost use Rattle.ffv1_record.specs.Accepted.{IsFirstUpTo};
ghost use Rattle.ffv1_record.specs.Configuration.{Configuration};
ghost use Rattle.ffv1_record.specs.declared.fault.RecordFault.{RecordFault};
ghost use Rattle.ffv1_matroska.specs.Rates.{IsTimed};
ghost use Rattle.ffv1_matroska.specs.Writers.{rate_in};
ghost use Rattle.ffv1_reads.specs.declared.fault.FileFault.TheVariants as file_fault;
ghost use Rattle.ffv1_video.specs.declared.fault.Fault.TheVariants as fault;
ghost use Rattle.ffv1_video.specs.Faults.{of_record};
ghost use Rattle.ffv1_video.specs.Profiles.{greatest_depth, record_profile};
ghost use Rattle.ffv1_pack.specs.Internal.VideoReads.{reading_of};
ghost use Rattle.ffv1_pack.specs.Pack.{IsPackFault};
ghost use Rattle.ffv1_pack.specs.Packing.{HasConfiguration, configuration_for, head_for};

use crate::encoding::config_with;
use crate::video::VideoReader;
use ffv1_matroska::{duration_of, rate_of};
use ffv1_range::laws as range_laws;
use ffv1_reads::FileFault;
use ffv1_record::Sets;
use ffv1_video::{Fault, Profile};
use ffv1_words::Choice;
use std::alloc::Allocator;

/// The greatest depth that a profile reads.
fn greatest_depth(profile: Profile) -> u32
    ensures { result ≡ greatest_depth profile }
{
    match profile {
        Profile::Strict => 8,
        Profile::Wide => 16,
    }
}

/// Refuses a video whose configuration is not accepted in a profile, which reads its depth. It
/// takes no memory.
pub(crate) fn judge<A: Allocator + Copy>(
    alloc: A,
    profile: Profile,
    choice: &Choice,
    reader: &VideoReader<A>,
) -> Result<(), Fault>
    requires { (reading_of reader.now).head.depth ≤ greatest_depth profile }
    ensures ok { OnOk result (HasConfiguration profile choice.now (reading_of reader.now).ppm
        (reading_of reader.now).head) }
    ensures err { IfErr result (λ f. (g : RecordFault) × IsFirstUpTo (record_profile profile)
        (greatest_depth profile)
        (configuration_for choice.now (reading_of reader.now).ppm (reading_of reader.now).head) g
        × (f ≡ of_record g)) }
    ensures own { IfErr result (IsPackFault profile) }
    ensures memory { IfErr result (λ f. f ≢ fault.OutOfMemory) }
{
    range_laws::deltas_make_one_table();
    let config = config_with(choice, reader, Sets::new(alloc));
    config.judged_by(
        1,
        profile.of_record(),
        reader.depth(),
        greatest_depth(profile),
    )?;
    Ok(())
}

/// Refuses with `Rate` a video whose rate no whole nanoseconds of a frame say. It takes no memory.
pub(crate) fn judge_rate<A: Allocator + Copy>(
    choice: &Choice,
    reader: &VideoReader<A>,
) -> Result<(), Fault>
    ensures ok { OnOk result ((c : Configuration) → IsTimed (rate_in (head_for choice.now
        (reading_of reader.now).ppm (reading_of reader.now).head c))) }
    ensures err { IfErr result (λ f. (f ≡ fault.File file_fault.Rate)
        × ((c : Configuration) → IsTimed (rate_in (head_for choice.now
        (reading_of reader.now).ppm (reading_of reader.now).head c)) → ⊥)) }
{
    let head = reader.head();
    let ppm = reader.is_ppm();
    let rate = if ppm { choice.rate } else { head.rate };
    let scale = if ppm { choice.scale } else { head.scale };
    if rate_of(duration_of(rate, scale)) != (rate, scale) {
        return Err(Fault::File(FileFault::Rate));
    }
    Ok(())
}
