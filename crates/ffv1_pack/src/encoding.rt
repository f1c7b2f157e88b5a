//! Encodes the pictures of a video.

ghost use Rattle.std.specs.Prelude.{◌≡◌, ◌⊎◌, ◌≤◌, ◌↔◌, IfOk, IfErr, IsTrue, OnOk, None, true, []};
ghost use Rattle.std.specs.Prelude.{◌∷◌};
ghost use Rattle.ffv1_wire.specs.Passage.{passage};
ghost use Rattle.ffv1_record.specs.Accepted.{IsFirstUpTo};
ghost use Rattle.ffv1_record.specs.Configuration.{at_depth, configuration_of, with_sets};
ghost use Rattle.ffv1_record.specs.declared.fault.RecordFault.{RecordFault};
ghost use Rattle.ffv1_reads.specs.Head.{head_of};
ghost use Rattle.ffv1_avi.specs.Written.{frames_of};
ghost use Rattle.ffv1_reads.specs.declared.fault.FileFault.TheVariants as file_fault;
ghost use Rattle.ffv1_video.specs.declared.fault.Fault.TheVariants as fault;
ghost use Rattle.ffv1_video.specs.Faults.{of_record};
ghost use Rattle.ffv1_pack.specs.Internal.Encoding.{EncodesAll, EncodesOne, StopsEncoding};
ghost use Rattle.ffv1_pack.specs.Internal.Encoding.{StopsNext, frame_in};
ghost use Rattle.ffv1_pack.specs.Pack.{IsPackFault, is_pack_fault};
ghost use Rattle.ffv1_pack.specs.Packing.{AreReadableIn, IsFor, IsLongIn, coder_for, colour_for};
ghost use Rattle.ffv1_pack.specs.Packing.{configuration_for, head_for, most_frame, said_for};
ghost use Rattle.ffv1_pack.specs.Packing.{set_for};
ghost use Rattle.ffv1_record.specs.declared.config.Profile.TheVariants as record_profiles;
ghost use Rattle.ffv1_video.specs.Profiles.{greatest_depth, record_profile};
ghost use Rattle.ffv1_pack.specs.Internal.VideoReads.{IsHeadOf, reading_of};

use crate::verifying::VerifyingEncoder;
use crate::video::VideoReader;
use ffv1_codec::{Info, Picture};
use ffv1_plane::QuantSet;
use ffv1_range::laws as range_laws;
use ffv1_reads::{FRAME_LIMIT, FileFault, FileHead, LIMIT};
use ffv1_record::{
    Checked, Coder, Colour, Config, Profile as RecordProfile, Sets, laws as record_laws,
    write_record,
};
use ffv1_video::colours::file_colour;
use ffv1_video::{Fault, Profile};
use ffv1_wire::ByteIn;
use ffv1_words::{Choice, CoderChoice};
use std::alloc::Allocator;
use std::mem;

/// The one set of a choice.
fn sets_for<A: Allocator + Copy>(alloc: A, large: bool) -> Result<Sets<A>, Fault>
    ensures ok { IfOk result (λ s. s ≡ set_for large ∷ []) }
    ensures err { IfErr result (λ f. f ≡ fault.OutOfMemory) }
{
    let mut sets = Sets::new(alloc);
    let set = if large {
        QuantSet::large(alloc)?
    } else {
        QuantSet::small(alloc)?
    };
    sets.push(set)?;
    Ok(sets)
}

/// The coder of a choice.
fn coder_for(coder: CoderChoice) -> Coder
    ensures { result ≡ coder_for coder }
{
    match coder {
        CoderChoice::Standard => Coder::One,
        CoderChoice::Carried => Coder::Two([0; 255]),
    }
}

/// PPM is coded by the colour transform.
fn colour_for(ppm: bool) -> Colour
    ensures { result ≡ colour_for ppm }
{
    if ppm { Colour::Rct } else { Colour::YCbCr }
}

/// The configuration of a video with these sets, whose depth it leaves out.
pub(crate) fn config_with<A: Allocator + Copy>(
    choice: &Choice,
    reader: &VideoReader<A>,
    sets: Sets<A>,
) -> Config<A>
    ensures value { at_depth (configuration_of result) (reading_of reader.now).head.depth
        ≡ with_sets (configuration_for choice.now (reading_of reader.now).ppm
        (reading_of reader.now).head) sets }
    ensures head { IsHeadOf (reading_of reader.now) }
{
    let head = reader.head();
    Config {
        width: head.width,
        height: head.height,
        coder: coder_for(choice.coder),
        colour: colour_for(reader.is_ppm()),
        chroma_planes: head.chroma_planes,
        extra_plane: head.extra_plane,
        log2_h: u32::from(head.log2_h),
        log2_v: u32::from(head.log2_v),
        columns: choice.columns,
        rows: choice.rows,
        sets,
        ec: choice.ec,
        intra: true,
    }
}

/// The configuration of a video, whose depth it leaves out.
fn config_for<A: Allocator + Copy>(
    alloc: A,
    choice: &Choice,
    reader: &VideoReader<A>,
) -> Result<Config<A>, Fault>
    ensures ok { IfOk result (λ c.
        at_depth (configuration_of c) (reading_of reader.now).head.depth
        ≡ configuration_for choice.now (reading_of reader.now).ppm (reading_of reader.now).head) }
    ensures head { IfOk result (λ _. IsHeadOf (reading_of reader.now)) }
    ensures err { IfErr result (λ f. f ≡ fault.OutOfMemory) }
{
    let sets = sets_for(alloc, choice.large)?;
    Ok(config_with(choice, reader, sets))
}

/// The same of the video's depth, checked in a profile, which reads that depth.
fn checked_for<A: Allocator + Copy>(
    alloc: A,
    profile: Profile,
    choice: &Choice,
    reader: &VideoReader<A>,
) -> Result<Checked<A>, Fault>
    requires { (reading_of reader.now).head.depth ≤ greatest_depth profile }
    ensures ok { IfOk result
        (IsFor profile choice.now (reading_of reader.now).ppm (reading_of reader.now).head) }
    ensures profile { IfOk result (λ c. c.profile ≡ record_profile profile) }
    ensures err { IfErr result (λ f. (f ≡ fault.OutOfMemory)
        ⊎ ((g : RecordFault) × IsFirstUpTo (record_profile profile)
        (greatest_depth profile)
        (configuration_for choice.now (reading_of reader.now).ppm (reading_of reader.now).head) g
        × (f ≡ of_record g))) }
    ensures own { IfErr result (IsPackFault profile) }
{
    range_laws::deltas_make_one_table();
    let config = config_for(alloc, choice, reader)?;
    Ok(config.check_in(profile.of_record(), reader.depth(), 16)?)
}

/// What encodes the pictures of a video, in a profile that reads its depth, and decodes each frame
/// again if the choice asks for that.
pub(crate) fn encoder_for<A: Allocator + Copy>(
    alloc: A,
    profile: Profile,
    choice: &Choice,
    reader: &VideoReader<A>,
) -> Result<VerifyingEncoder<A>, Fault>
    requires { (reading_of reader.now).head.depth ≤ greatest_depth profile }
    ensures ok { IfOk result (λ e. IsFor profile choice.now (reading_of reader.now).ppm
        (reading_of reader.now).head e.accepted) }
    ensures verify { IfOk result (λ e. e.verifies ≡ choice.now.verify) }
    ensures err { IfErr result (λ f. (f ≡ fault.OutOfMemory)
        ⊎ ((g : RecordFault) × IsFirstUpTo (record_profile profile)
        (greatest_depth profile)
        (configuration_for choice.now (reading_of reader.now).ppm (reading_of reader.now).head) g
        × (f ≡ of_record g))) }
    ensures own { IfErr result (IsPackFault profile) }
{
    record_laws::record_has_one_configuration();
    let checked = checked_for(alloc, profile, choice, reader)?;
    if !choice.verify {
        return Ok(VerifyingEncoder::new(alloc, checked));
    }
    let again = checked_for(alloc, profile, choice, reader)?;
    let encoder = VerifyingEncoder::verifying(alloc, checked, again)?;
    Ok(encoder)
}

/// The head of the file of a video.
pub(crate) fn file_head<A: Allocator + Copy>(
    alloc: A,
    choice: &Choice,
    reader: &VideoReader<A>,
    checked: &Checked<A>,
) -> Result<FileHead<A>, Fault>
    ensures ok { IfOk result (λ h. head_of h ≡ head_for choice.now (reading_of reader.now).ppm
        (reading_of reader.now).head checked.now.configuration) }
    ensures err { IfErr result (λ f. f ≡ fault.OutOfMemory) }
{
    let config_record = write_record(alloc, checked)?;
    let head = reader.head();
    let ppm = reader.is_ppm();
    Ok(FileHead {
        width: head.width,
        height: head.height,
        rate: if ppm { choice.rate } else { head.rate },
        scale: if ppm { choice.scale } else { head.scale },
        config_record,
        colour: file_colour(&choice.colour, head),
    })
}

/// What each frame of a video says of its picture.
fn info_for<A: Allocator + Copy>(reader: &VideoReader<A>) -> Info
    ensures value { result ≡ said_for (reading_of reader.now).head }
    ensures head { IsHeadOf (reading_of reader.now) }
{
    let head = reader.head();
    Info::new(head.structure, head.sar_num, head.sar_den).unwrap()
}

/// Reads and encodes the next picture; None at the end. The planes lend their memory.
pub(crate) fn encode_picture<R: ByteIn, A: Allocator + Copy>(
    alloc: A,
    reader: &mut VideoReader<A>,
    input: &mut R,
    encoder: &mut VerifyingEncoder<A>,
    planes: &mut Vec<Vec<u8, A>, A>,
) -> Result<Option<Vec<u8, A>>, Fault>
    requires working { (reading_of reader.old).failed ≡ None }
    requires suits { (profile : Profile) × (choice : Choice) × IsFor profile choice
        (reading_of reader.old).ppm (reading_of reader.old).head encoder.old.accepted }
    ensures same { encoder.new.accepted ≡ encoder.old.accepted }
    ensures ok { IfOk result (λ o. EncodesOne (passage R.remaining R.failures input.old input.new)
        encoder.old.accepted (reading_of reader.old) (reading_of reader.new) (frame_in o)) }
    ensures err { IfErr result (StopsNext (passage R.remaining R.failures input.old input.new)
        encoder.old.accepted (reading_of reader.old)) }
    ensures own { IfErr result (λ f. is_pack_fault f ≡ true) }
{
    let info = info_for(reader);
    if !reader.next(input, planes)? {
        return Ok(None);
    }
    let lent = mem::replace(planes, Vec::new(alloc));
    let picture = Picture::new(encoder.config(), lent).unwrap();
    let frame = encoder.encode(&picture, info)?;
    *planes = picture.into_planes();
    Ok(Some(frame))
}

/// The most bytes of a frame that is read in a profile.
pub(crate) fn most_frame(profile: RecordProfile) -> usize
    ensures { result ≡ most_frame profile }
{
    match profile {
        RecordProfile::Strict => LIMIT as usize,
        RecordProfile::Wide => FRAME_LIMIT as usize,
    }
}

/// Whether a frame is too long for an AVI that is packed in a profile.
fn is_long_in(profile: RecordProfile, frame: &[u8]) -> bool
    ensures { IsTrue result ↔ IsLongIn profile frame.now }
{
    profile == RecordProfile::Wide && frame.len() > most_frame(profile)
}

/// Encodes all pictures for an AVI.
pub(crate) fn encode_pictures<R: ByteIn, A: Allocator + Copy>(
    alloc: A,
    reader: &mut VideoReader<A>,
    input: &mut R,
    encoder: &mut VerifyingEncoder<A>,
    frames: &mut Vec<Vec<u8, A>, A>,
) -> Result<(), Fault>
    requires working { (reading_of reader.old).failed ≡ None }
    requires begun { (reading_of reader.old).begun ≡ true }
    requires suits { (profile : Profile) × (choice : Choice) × IsFor profile choice
        (reading_of reader.old).ppm (reading_of reader.old).head encoder.old.accepted }
    requires none { frames.old.items ≡ [] }
    ensures ok { OnOk result (EncodesAll (passage R.remaining R.failures input.old input.new)
        encoder.old.accepted (reading_of reader.old) (frames_of frames.new.items)) }
    ensures readable { OnOk result
        (AreReadableIn encoder.old.accepted.profile (frames_of frames.new.items)) }
    ensures err { IfErr result (StopsEncoding (passage R.remaining R.failures input.old input.new)
        encoder.old.accepted (reading_of reader.old)) }
    ensures own { IfErr result (λ f. (is_pack_fault f ≡ true)
        ⊎ ((encoder.old.accepted.profile ≡ record_profiles.Wide)
        × (f ≡ fault.File file_fault.ChunkTooLong))) }
{
    let profile = encoder.config().profile();
    let mut planes = Vec::new(alloc);
    while let Some(frame) = encode_picture(alloc, reader, input, encoder, &mut planes)? {
        if is_long_in(profile, frame.as_slice()) {
            return Err(Fault::File(FileFault::ChunkTooLong));
        }
        frames.push(frame)?;
    }
    Ok(())
}
