//! The frames of a file, one after the other.

ghost use Rattle.std.specs.Prelude.{◌≡◌, ◌⊎◌, ◌<◌, ◌≤◌, ◌+◌, ◌*◌, IfErr, IfOk, IfSome, None};
ghost use Rattle.std.specs.Prelude.{OnOk, Some, false, length, max, true};
ghost use Rattle.std.specs.Vec.{vec_capacity};
ghost use Rattle.ffv1_wire.specs.Passage.{passage};
ghost use Rattle.ffv1_reads.specs.Head.{head_of};
ghost use Rattle.ffv1_files.specs.Behind.{EndsThere};
ghost use Rattle.ffv1_files.specs.Noted.{NotesReached};
ghost use Rattle.ffv1_files.specs.Offsets.{Reached};
ghost use Rattle.ffv1_files.specs.Places.{amount, container_of};
ghost use Rattle.ffv1_record.specs.Reading.{IsRefused, ReachesSets};
ghost use Rattle.ffv1_record.specs.declared.fault.RecordFault.{RecordFault};
ghost use Rattle.ffv1_record.specs.declared.fault.RecordFault.TheVariants as record_fault;
ghost use Rattle.ffv1_video.specs.declared.fault.Fault.TheVariants as fault;
ghost use Rattle.ffv1_unpack.specs.Containers.{is_profile_fault};
ghost use Rattle.ffv1_unpack.specs.Located.{LocatedFault, Stands};
ghost use Rattle.ffv1_unpack.specs.Internal.Located.{LocatedPayload, LocatedStep};
ghost use Rattle.ffv1_video.specs.Faults.{of_avi};
ghost use Rattle.ffv1_video.specs.Profiles.{greatest_depth, record_profile, scope_in};
ghost use Rattle.ffv1_unpack.specs.Opens.{IsReadAgain, LacksOpening, is_opening_fault};
ghost use Rattle.ffv1_unpack.specs.Internal.Opens.{OpensStream};
ghost use Rattle.ffv1_unpack.specs.Stream.{IsStream};
ghost use Rattle.ffv1_unpack.specs.Internal.Told.{IfMore, IsOwnStop, IsToldFault, OnPayload};
ghost use Rattle.ffv1_unpack.specs.Internal.Told.{ReadAnswers, StepAnswers};

use ffv1_codec::{FrameDecoder, FrameFault, Info};
use ffv1_files::{Course, FileReader, Notes};
use ffv1_reads::{FileFault, FileHead};
use ffv1_record::{Checked, RecordFault, read_record_in};
use ffv1_video::{Fault, Profile};
use ffv1_wire::{AgainIn, ByteIn, LineSink};
use std::alloc::{Allocator, Global};

/// Why a file is not played on.
#[derive(Clone, Copy, Debug)]
pub enum Stop {
    /// The file has no further frame that can be read.
    File(FileFault),
    /// The payload that was read does not decode to its end.
    Payload(FrameFault),
}

/// What comes next of a file; `I` is what is said of a picture.
#[derive(Clone, Copy, Debug)]
pub enum NextFrame<I> {
    /// No frame.
    End,
    /// A frame that was decoded; this is said of its picture.
    Coded(I),
    /// A frame whose payload has no bytes: it repeats the one before it.
    Again,
}

/// The configuration of a head's record, for pictures of the head's size, in the profile. Refuses
/// with the record's first fault, or with `OutOfMemory` if memory for its quantisation table sets
/// is refused.
pub fn read_head<A: Allocator + Copy>(
    alloc: A,
    profile: Profile,
    head: &FileHead<A>,
) -> Result<Checked<A>, RecordFault>
    ensures ok { IfOk result (λ c.
        IsStream profile (record { head = head_of head.now; accepted = c })) }
    ensures err { IfErr result (λ f. (f ≡ record_fault.OutOfMemory)
        ⊎ IsRefused (record_profile profile) (greatest_depth profile)
        head.now.config_record.items head.now.width head.now.height f) }
    ensures memory { IfErr result (λ f. f ≡ record_fault.OutOfMemory →
        ReachesSets (record_profile profile) (greatest_depth profile)
        head.now.config_record.items) }
    ensures sound { IfErr result (λ f. f ≡ record_fault.OutOfMemory → (g : RecordFault) →
        IsRefused (record_profile profile) (greatest_depth profile)
        head.now.config_record.items head.now.width head.now.height g → ⊥) }
{
    // Both arms are written out, so that the clauses are proved by arm.
    match read_record_in(
        alloc,
        &head.config_record,
        head.width,
        head.height,
        profile.of_record(),
        16,
    ) {
        Ok(checked) => Ok(checked),
        Err(fault) => Err(fault),
    }
}

/// Opens a file as `open_stream` does. If the file is refused, the offset is how many bytes of
/// it come before the element or chunk that is.
fn open_stream_located<R: AgainIn, A: Allocator + Copy>(
    alloc: A,
    profile: Profile,
    input: &mut R,
    offset: &mut u64,
) -> Result<(FileReader<A>, Checked<A>), Fault>
    ensures ok { IfOk result (λ p. OpensStream profile p.0 p.1
        (passage R.remaining R.failures input.old input.new)) }
    ensures err { IfErr result (LacksOpening profile
        (passage R.remaining R.failures input.old input.new)) }
    ensures own { IfErr result (λ f. (is_opening_fault f ≡ true)
        ⊎ (is_profile_fault profile f ≡ true)) }
    ensures again { IfErr result (IsReadAgain profile (R.begins input.old)
        (passage R.remaining R.failures input.old input.new)) }
    ensures located { IfOk result (λ p. Reached (scope_in profile) (R.remaining input.old)
        (R.remaining input.new) p.0) }
    ensures ends { IfOk result (λ p. EndsThere p.0) }
    ensures noted { IfOk result (λ p. NotesReached (scope_in profile) (R.remaining input.old)
        (R.remaining input.new) p.0) }
    ensures stopped { IfErr result (λ f. LocatedFault (scope_in profile)
        (passage R.remaining R.failures input.old input.new) f offset.new) }
{
    let reader = FileReader::open_located(alloc, profile.scope(), input, offset)?;
    let checked = read_head(alloc, profile, reader.head())?;
    Ok((reader, checked))
}

/// Opens a file, as the profile says, and reads the configuration of its frames. The faults are
/// those of the file up to its frames, then those of its record; `Read` and `OutOfMemory` as they
/// come.
pub(crate) fn open_stream<R: AgainIn, A: Allocator + Copy>(
    alloc: A,
    profile: Profile,
    input: &mut R,
) -> Result<(FileReader<A>, Checked<A>), Fault>
    ensures ok { IfOk result (λ p. OpensStream profile p.0 p.1
        (passage R.remaining R.failures input.old input.new)) }
    ensures err { IfErr result (LacksOpening profile
        (passage R.remaining R.failures input.old input.new)) }
    ensures own { IfErr result (λ f. (is_opening_fault f ≡ true)
        ⊎ (is_profile_fault profile f ≡ true)) }
    ensures again { IfErr result (IsReadAgain profile (R.begins input.old)
        (passage R.remaining R.failures input.old input.new)) }
    ensures located { IfOk result (λ p. Stands (scope_in profile) (R.remaining input.old)
        (R.remaining input.new) p.0) }
{
    let mut offset = 0u64;
    match open_stream_located(alloc, profile, input, &mut offset) {
        Ok(opened) => Ok(opened),
        Err(refused) => Err(refused),
    }
}

/// A file that is played: its reader, the decoder of its frames, and the payload that was read
/// last. Both vectors that it needs are reused for each frame. Then what is noted of the end, once
/// it was read, and after a fault of the file the number of bytes before what is refused; and
/// whether Cues came after the last Cluster, and where reading has come to, if items are read.
pub struct Player<A: Allocator = Global> {
    pub(crate) reader: FileReader<A>,
    pub(crate) decoder: FrameDecoder<A>,
    pub(crate) payload: Vec<u8, A>,
    pub(crate) notes: Notes,
    pub(crate) offset: u64,
    pub(crate) cued: bool,
    pub(crate) course: Course,
}

impl<A: Allocator> Drop for Player<A> {
    fn drop(self) {
        let Player {
            reader: _reader,
            decoder: _decoder,
            payload: _payload,
            notes: _notes,
            offset: _offset,
            cued: _cued,
            course: _course,
        } = self;
    }
}

/// A player of a file that was opened. Refuses with `OutOfMemory` if the decoder is refused its
/// memory.
pub(crate) fn player_of<A: Allocator + Copy>(
    alloc: A,
    reader: FileReader<A>,
    checked: Checked<A>,
) -> Result<Player<A>, Fault>
    ensures reader { IfOk result (λ p. p.reader ≡ reader) }
    ensures decoder { IfOk result (λ p. p.decoder.accepted ≡ checked) }
    ensures uncued { IfOk result (λ p. p.cued ≡ false) }
    ensures err { IfErr result (λ f. f ≡ fault.OutOfMemory) }
{
    let decoder = FrameDecoder::new(alloc, checked)?;
    Ok(Player {
        reader,
        decoder,
        payload: Vec::new(alloc),
        notes: Notes::NONE,
        offset: 0,
        cued: false,
        course: Course::Plain,
    })
}

/// Opens a file as `open_player` does. If the file is refused, the offset is how many bytes of
/// it come before the element or chunk that is. No Cues have come.
pub(crate) fn open_player_located<R: AgainIn, A: Allocator + Copy>(
    alloc: A,
    profile: Profile,
    input: &mut R,
    offset: &mut u64,
) -> Result<Player<A>, Fault>
    ensures ok { IfOk result (λ p. OpensStream profile p.reader p.decoder.accepted
        (passage R.remaining R.failures input.old input.new)) }
    ensures err { IfErr result (LacksOpening profile
        (passage R.remaining R.failures input.old input.new)) }
    ensures own { IfErr result (λ f. (is_opening_fault f ≡ true)
        ⊎ (is_profile_fault profile f ≡ true)) }
    ensures again { IfErr result (IsReadAgain profile (R.begins input.old)
        (passage R.remaining R.failures input.old input.new)) }
    ensures located { IfOk result (λ p. Reached (scope_in profile) (R.remaining input.old)
        (R.remaining input.new) p.reader) }
    ensures ends { IfOk result (λ p. EndsThere p.reader) }
    ensures uncued { IfOk result (λ p. p.cued ≡ false) }
    ensures noted { IfOk result (λ p. NotesReached (scope_in profile) (R.remaining input.old)
        (R.remaining input.new) p.reader) }
    ensures stopped { IfErr result (λ f. LocatedFault (scope_in profile)
        (passage R.remaining R.failures input.old input.new) f offset.new) }
{
    let (reader, checked) = open_stream_located(alloc, profile, input, offset)?;
    let player = player_of(alloc, reader, checked)?;
    Ok(player)
}

/// Opens a file, and makes the decoder of its frames. The faults are those of `open_stream`, and
/// `OutOfMemory` if the decoder is refused its memory.
pub(crate) fn open_player<R: AgainIn, A: Allocator + Copy>(
    alloc: A,
    profile: Profile,
    input: &mut R,
) -> Result<Player<A>, Fault>
    ensures ok { IfOk result (λ p. OpensStream profile p.reader p.decoder.accepted
        (passage R.remaining R.failures input.old input.new)) }
    ensures err { IfErr result (LacksOpening profile
        (passage R.remaining R.failures input.old input.new)) }
    ensures own { IfErr result (λ f. (is_opening_fault f ≡ true)
        ⊎ (is_profile_fault profile f ≡ true)) }
    ensures again { IfErr result (IsReadAgain profile (R.begins input.old)
        (passage R.remaining R.failures input.old input.new)) }
    ensures located { IfOk result (λ p. Stands (scope_in profile) (R.remaining input.old)
        (R.remaining input.new) p.reader) }
{
    let mut offset = 0u64;
    match open_player_located(alloc, profile, input, &mut offset) {
        Ok(player) => Ok(player),
        Err(refused) => Err(refused),
    }
}

/// Reads the next payload. Answers false if there is none; then what comes after the end was
/// looked at, and what is noted of it is in `notes`. After a fault `offset` is the number of bytes
/// of the file before the element or chunk that is refused, or before what comes after the end.
pub(crate) fn read_payload<R: ByteIn, A: Allocator>(
    player: &mut Player<A>,
    input: &mut R,
) -> Result<bool, FileFault>
    requires sound { player.old.reader.fault ≡ None }
    ensures answer { ReadAnswers player.old.reader.place player.new.reader.place
        player.new.payload.items player.new.notes
        (passage R.remaining R.failures input.old input.new) result }
    ensures sound { OnOk result (player.new.reader.fault ≡ None) }
    ensures less { IfOk result (λ more. more ≡ true →
        amount player.new.reader.place < amount player.old.reader.place) }
    ensures same { player.new.decoder ≡ player.old.decoder }
    ensures head { player.new.reader.head ≡ player.old.reader.head }
    ensures container { container_of player.new.reader.place
        ≡ container_of player.old.reader.place }
    ensures own { IfErr result (λ f. IsToldFault player.old.reader (R.remaining input.old)
        (of_avi f)) }
    ensures located { LocatedPayload player.old.reader
        (passage R.remaining R.failures input.old input.new) player.new.notes result
        player.new.reader player.new.offset }
    ensures kept { player.new.reader.room ≡ player.old.reader.room }
    ensures room { vec_capacity player.new.payload ≤ max (vec_capacity player.old.payload)
        (2 * length player.new.payload.items + 65536) }
{
    match player.reader.next_frame(input, &mut player.payload) {
        Ok(true) => Ok(true),
        Ok(false) => match player.reader.look_behind(input) {
            Ok(notes) => {
                player.notes = notes;
                Ok(false)
            }
            Err(fault) => {
                player.offset = player.reader.end();
                Err(fault)
            }
        },
        Err(fault) => {
            player.offset = player.reader.offset();
            Err(fault)
        }
    }
}

/// Reads the next frame and decodes it into a sink, and answers what it says of its picture, or
/// that it repeats the one before it, of which nothing is decoded; or that there is none, as
/// `read_payload` does.
pub(crate) fn play<R: ByteIn, S: LineSink, A: Allocator>(
    player: &mut Player<A>,
    input: &mut R,
    sink: &mut S,
) -> Result<NextFrame<Info>, Stop>
    requires sound { player.old.reader.fault ≡ None }
    ensures answer { StepAnswers S.takes S.refuses player.old.decoder.accepted
        player.old.reader.place player.new.reader.place player.new.payload.items
        player.new.decoder.tally player.new.notes
        (passage R.remaining R.failures input.old input.new) sink.old sink.new result }
    ensures sound { OnOk result (player.new.reader.fault ≡ None) }
    ensures less { IfOk result (λ next. IfMore next
        (amount player.new.reader.place < amount player.old.reader.place)) }
    ensures same { player.new.decoder.accepted ≡ player.old.decoder.accepted }
    ensures container { container_of player.new.reader.place
        ≡ container_of player.old.reader.place }
    ensures own { IfErr result (IsOwnStop player.old.reader (R.remaining input.old)) }
    ensures goes_on { IfErr result (OnPayload ((player.new.reader.fault ≡ None)
        × (amount player.new.reader.place < amount player.old.reader.place))) }
    ensures located { LocatedStep player.old.reader
        (passage R.remaining R.failures input.old input.new) player.new.notes result
        player.new.reader player.new.offset }
    ensures kept { player.new.reader.room ≡ player.old.reader.room }
    ensures room { vec_capacity player.new.payload ≤ max (vec_capacity player.old.payload)
        (2 * length player.new.payload.items + 65536) }
{
    match read_payload(player, input) {
        Ok(false) => Ok(NextFrame::End),
        Ok(true) => {
            if player.payload.is_empty() {
                return Ok(NextFrame::Again);
            }
            match player.decoder.decode(&player.payload, sink) {
                Ok(info) => Ok(NextFrame::Coded(info)),
                Err(fault) => Err(Stop::Payload(fault)),
            }
        }
        Err(fault) => Err(Stop::File(fault)),
    }
}
