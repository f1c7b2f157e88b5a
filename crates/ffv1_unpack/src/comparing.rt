//! Compares the pictures of a file with a list of MD5s.

ghost use Rattle.std.specs.Prelude.{◌≡◌, ◌<◌, ◌≤◌, IfErr, IfOk, IfSome, List, None, OnOk, length};
ghost use Rattle.std.specs.Prelude.{slice_get};
ghost use Rattle.ffv1_wire.specs.Passage.{passage};
ghost use Rattle.ffv1_record.specs.Accepted.{IsAccepted};
ghost use Rattle.ffv1_slice.specs.Grid.{division_of};
ghost use Rattle.ffv1_codec.specs.Kept.{zeros_of};
ghost use Rattle.ffv1_codec.specs.Picture.{AreOf, planes_of};
ghost use Rattle.ffv1_files.specs.Places.{amount, container_of};
ghost use Rattle.ffv1_video.specs.KeptLines.{IsKeptFor};
ghost use Rattle.ffv1_video.specs.declared.fault.Fault.TheVariants as fault;
ghost use Rattle.ffv1_unpack.specs.Check.{IsCheckFault};
ghost use Rattle.ffv1_unpack.specs.Compared.{Agrees, ComparingStops, IsUnlike, frame_numbers};
ghost use Rattle.ffv1_unpack.specs.Compared.{is_md5, met, picture_number};
ghost use Rattle.ffv1_unpack.specs.Internal.Compared.{CompareAnswers, FramesStop};
ghost use Rattle.ffv1_unpack.specs.Internal.Plays.{PlaysAll};
ghost use Rattle.ffv1_unpack.specs.Internal.Told.{IsToldFault};
ghost use Rattle.ffv1_unpack.specs.Opens.{IsReadAgain};
ghost use Rattle.ffv1_unpack.specs.Plays.{HasThen};
ghost use Rattle.ffv1_unpack.specs.Stream.{Frame, IsFrame, coded_frames, frame_payload};
ghost use Rattle.ffv1_range.specs.Counts.{saturated};
ghost use Rattle.ffv1_unpack.specs.declared.comparing.Unlike.TheVariants as unlike;
ghost use Rattle.ffv1_unpack.specs.Internal.Located.{EndsNoted, StaysReached};

use crate::player::{NextFrame, Player, Stop, open_player, play};
use ffv1_codec::{KeepLines, laws as codec_laws};
use ffv1_files::{Notes, laws as files_laws};
use ffv1_record::{Checked, laws as record_laws};
use ffv1_video::picture_md5::picture_md5;
use ffv1_video::{Fault, Profile};
use ffv1_wire::{AgainIn, ByteIn};
use std::alloc::Allocator;

/// Why the pictures of a file are not those of a list of MD5s.
#[derive(Clone, Copy, Debug, PartialEq, Eq)]
pub enum Unlike {
    /// The file has this fault.
    Fault(Fault),
    /// The frame with this number, counted from 0, has another MD5 than the list, or the list or
    /// the file has no such frame. A frame that repeats another is counted.
    Differs(u64),
}

/// How far pictures were compared.
#[derive(Clone, Copy, Debug)]
pub struct Met {
    /// How many frames were read. A count of 64 bits stays at its greatest value.
    pub frames: u64,
    /// How many MD5s of the list they have: one that repeats another has none.
    pub md5s: usize,
}

impl From<Fault> for Unlike {
    ghost from_gives = { λ f u. u ≡ unlike.Fault f };

    fn from(fault: Fault) -> Unlike {
        Unlike::Fault(fault)
    }
}

/// A sink that keeps the lines of a picture.
fn kept_lines<A: Allocator + Copy>(alloc: A, checked: &Checked<A>) -> Result<KeepLines<A>, Fault>
    ensures ok { IfOk result (λ kept. kept ≡ record {
      grid = division_of checked.now.configuration;
      planes = zeros_of (division_of checked.now.configuration);
      failures = 0;
    }) }
    ensures err { IfErr result (λ f. f ≡ fault.OutOfMemory) }
{
    let kept = KeepLines::new(alloc, checked)?;
    Ok(kept)
}

/// The MD5 of the picture of these planes, as a number whose first byte is the highest.
fn picture_number<A: Allocator>(checked: &Checked<A>, planes: &[Vec<u8, A>]) -> u128
    requires { AreOf (division_of checked.now.configuration) (planes_of planes.now) }
    ensures { result ≡ picture_number checked.now (planes_of planes.now) }
{
    record_laws::accepted_configuration_has_sound_parts();
    codec_laws::sink::rct_planes_have_the_picture_size();
    let rct = checked.config().colour.is_rct();
    let depth = checked.depth();
    let (_, hash) = picture_md5(rct, depth, planes);
    u128::from_be_bytes(hash)
}

/// Whether the list has this MD5 at this place.
fn has_md5(md5s: &[u128], number: usize, md5: u128) -> bool
    ensures { result ≡ is_md5 (slice_get md5s.now number) md5 }
{
    match md5s.get(number) {
        Some(listed) => *listed == md5,
        None => false,
    }
}

/// Reads the next frame, decodes it, and compares its picture with the next MD5 of the list; one
/// that repeats another is compared with none. Answers how far that is then, and None if there is
/// none.
fn compare_next<R: ByteIn, A: Allocator>(
    player: &mut Player<A>,
    input: &mut R,
    kept: &mut KeepLines<A>,
    md5s: &[u128],
    before: Met,
) -> Result<Option<Met>, Unlike>
    requires sound { player.old.reader.fault ≡ None }
    requires accepted { IsAccepted player.old.decoder.accepted.configuration
        player.old.decoder.accepted.table }
    requires kept { IsKeptFor player.old.decoder.accepted kept.old }
    ensures answer { CompareAnswers player.old.decoder.accepted md5s.now before
        player.old.reader.place player.new.reader.place
        (passage R.remaining R.failures input.old input.new) player.new.notes result }
    ensures kept { OnOk result (IsKeptFor player.old.decoder.accepted kept.new) }
    ensures sound { OnOk result (player.new.reader.fault ≡ None) }
    ensures less { IfOk result (λ more. IfSome more (λ _.
        amount player.new.reader.place < amount player.old.reader.place)) }
    ensures reached { IfOk result (λ more. IfSome more (λ _. StaysReached player.old.reader
        player.new.reader (passage R.remaining R.failures input.old input.new))) }
    ensures noted { IfOk result (λ more. more ≡ None → EndsNoted player.old.reader
        (passage R.remaining R.failures input.old input.new) player.new.notes) }
    ensures same { player.new.decoder.accepted ≡ player.old.decoder.accepted }
    ensures container { container_of player.new.reader.place
        ≡ container_of player.old.reader.place }
    ensures own { IfErr result (IsUnlike (IsToldFault player.old.reader (R.remaining input.old))) }
{
    codec_laws::answer::answer_is_ok_for_coded_pictures::<KeepLines<A>>();
    codec_laws::sink::sinks_of_own_lines_refuse_none();
    codec_laws::sink::kept_lines_make_up_the_picture();
    codec_laws::answer::answered_fault_is_of_decoding::<KeepLines<A>>();
    match play(player, input, kept) {
        Ok(NextFrame::End) => Ok(None),
        Ok(NextFrame::Coded(_info)) => {
            let checked = player.decoder.config();
            let md5 = picture_number(checked, kept.planes());
            if has_md5(md5s, before.md5s, md5) {
                let met = before.md5s + 1;
                return Ok(Some(Met {
                    frames: before.frames.saturating_add(1),
                    md5s: met,
                }));
            }
            Err(Unlike::Differs(before.frames))
        }
        Ok(NextFrame::Again) => Ok(Some(Met {
            frames: before.frames.saturating_add(1),
            md5s: before.md5s,
        })),
        Err(Stop::File(fault)) => Err(Unlike::Fault(Fault::from(fault))),
        Err(Stop::Payload(fault)) => Err(Unlike::Fault(Fault::from(fault.fault))),
    }
}

/// Decodes all frames that are left, and compares each picture with the next MD5 of the list as
/// soon as it is decoded. Answers how far that is.
fn compare_frames<R: ByteIn, A: Allocator + Copy>(
    alloc: A,
    player: &mut Player<A>,
    input: &mut R,
    md5s: &[u128],
) -> Result<Met, Unlike>
    requires sound { player.old.reader.fault ≡ None }
    requires accepted { IsAccepted player.old.decoder.accepted.configuration
        player.old.decoder.accepted.table }
    ensures ok { IfOk result (λ m. (frames : List Frame)
        × (m.frames ≡ saturated (length frames)) × (m.md5s ≡ length (coded_frames frames))
        × (m.md5s ≤ length md5s.now)
        × PlaysAll (IsFrame player.old.decoder.accepted) frame_payload
        (HasThen player.old.reader.place) (frame_numbers player.old.decoder.accepted)
        (passage R.remaining R.failures input.old input.new) (met md5s.now m.md5s)
        player.new.notes frames) }
    ensures err { IfErr result (FramesStop player.old.reader.place player.old.decoder.accepted
        md5s.now (passage R.remaining R.failures input.old input.new)) }
    ensures own { IfErr result (IsUnlike (IsToldFault player.old.reader (R.remaining input.old))) }
    ensures noted { IfOk result (λ n. EndsNoted player.old.reader
        (passage R.remaining R.failures input.old input.new) player.new.notes) }
{
    let checked = player.decoder.config();
    let mut kept = kept_lines(alloc, checked)?;
    let mut so_far = Met { frames: 0, md5s: 0 };
    while let Some(next) = compare_next(player, input, &mut kept, md5s, so_far)? {
        so_far = next;
    }
    Ok(so_far)
}

/// Decodes all frames of a file that the profile reads, and compares the MD5 of each picture with
/// that of a list, in turn: Ok exactly if they are the same, and there is at least one. An MD5 is a
/// number whose first byte is the highest, of the bytes that `framemd5` takes it of. A frame of an
/// AVI that has no bytes has none.
///
/// The first fault or difference ends it, after frames that agree. `Differs` has the number of the
/// first frame, counted from 0, that has another MD5, or that the list or the file does not have;
/// after a frame that differs nothing is read. `Fault` has the faults of `framemd5`, but for
/// `Write`.
///
/// At the end, what comes after the file is looked at, as `FileReader::look_behind`
/// does: `Fault` has `Another` if another file begins there; else the answer is what it notes.
///
/// Beside the list and what the decoder holds, one payload and one picture are held.
pub fn check_against<R: AgainIn, A: Allocator + Copy>(
    alloc: A,
    profile: Profile,
    input: &mut R,
    md5s: &[u128],
) -> Result<Notes, Unlike>
    ensures ok { IfOk result (Agrees profile md5s.now
        (passage R.remaining R.failures input.old input.new)) }
    ensures err { IfErr result (ComparingStops profile md5s.now
        (passage R.remaining R.failures input.old input.new)) }
    ensures own { IfErr result (IsUnlike (IsCheckFault profile)) }
    ensures again { IfErr result (IsUnlike (IsReadAgain profile (R.begins input.old)
        (passage R.remaining R.failures input.old input.new))) }
{
    files_laws::frames_come_in_turn();
    files_laws::what_is_read_is_a_file();
    let mut player = open_player(alloc, profile, input)?;
    let compared = compare_frames(alloc, &mut player, input, md5s)?;
    if compared.frames == 0 {
        return Err(Unlike::Fault(Fault::NoFrames));
    }
    if compared.md5s < md5s.len() {
        return Err(Unlike::Differs(compared.frames));
    }
    Ok(player.notes)
}
