//! The chunks of a file that may be damaged. A fault of theirs is a value, and the calls answer
//! `Truncated` if the input ends inside a chunk, and `Read` if a read failed.

ghost use Rattle.std.specs.Prelude.{◌≡◌, ◌+◌, ◌++◌, ℕ, IfOk, List, None, Option, Some, false};
ghost use Rattle.std.specs.Prelude.{length, take};
ghost use Rattle.ffv1_avi.specs.Behind.{Stand};
ghost use Rattle.ffv1_avi.specs.Internal.Came.{header_turn};
ghost use Rattle.ffv1_avi.specs.Internal.Ending.{AnswersOrNone};
ghost use Rattle.ffv1_avi.specs.Internal.Hears.{begun_turn, entered_turn, further_turn, header_of};
ghost use Rattle.ffv1_avi.specs.Internal.Hears.{heard_turn, named_turn, open_turn, sized_turn};
ghost use Rattle.ffv1_avi.specs.Items.{stands};
ghost use Rattle.ffv1_avi.specs.Turns.{passed_turn, seeks_on, turn_read};
ghost use Rattle.ffv1_avi.specs.declared.course.Pending.TheVariants.{Nothing};
ghost use Rattle.ffv1_avi.specs.declared.course.Turn.{Turn};
ghost use Rattle.ffv1_avi.specs.declared.place.Extent.TheVariants.{EveryRiff};
ghost use Rattle.ffv1_reads.specs.Reads.{Answers};
ghost use Rattle.ffv1_wire.specs.Passage.{passage};

use crate::came::{Header, fault_turn, finish};
use crate::chunk::is_name;
use crate::course::{Pending, Turn};
use crate::header::{movi_header, own_came, riff_came, riff_header};
use crate::open::own_name;
use crate::opens::{goes_on, name_or_end};
use crate::place::{Place, is_open};
use crate::riff::take_some;
use crate::seeking::seek_turn;
use byteorder::{ByteOrder, LittleEndian};
use ffv1_reads::{FileFault, begins_file, pass, take};
use ffv1_wire::ByteIn;

/// The bytes of a header, and then four or eight more.
fn joined(head: &[u8], more: &[u8]) -> [u8; 12]
    requires { length head.now + length more.now ≡ 12 }
    ensures { result ≡ head.now ++ more.now }
{
    let mut bytes = [0u8; 12];
    bytes[..head.len()].copy_from_slice(head);
    bytes[head.len()..].copy_from_slice(more);
    bytes
}

/// The bytes of a header.
fn header_bytes(name: &[u8], size: &[u8]) -> [u8; 8]
    requires { length name.now + length size.now ≡ 8 }
    ensures { result ≡ name.now ++ size.now }
{
    let mut bytes = [0u8; 8];
    bytes[..name.len()].copy_from_slice(name);
    bytes[name.len()..].copy_from_slice(size);
    bytes
}

/// A chunk after its header, of which a list has its own name next.
fn read_behind<R: ByteIn>(
    input: &mut R,
    in_movi: bool,
    place: Place,
    header: Header,
    head: [u8; 8],
) -> Result<Option<Turn>, FileFault>
    ensures answer { Answers (λ (t : Option Turn). t) (header_turn in_movi place header head)
        (passage R.remaining R.failures input.old input.new) result }
    ensures more { IfOk result (λ t. t ≡ None → ⊥) }
{
    match header {
        Header::Whole(came) => finish(input, place, came, &head),
        Header::Named { enters, next, size } => {
            let own = own_name(input)?;
            let came = own_came(in_movi, enters, next, size, own);
            finish(input, place, came, &joined(&head, &own))
        }
    }
}

/// The name of a header.
fn name_of(head: [u8; 8]) -> [u8; 4]
    ensures { result ≡ take 4 head }
{
    let mut name = [0u8; 4];
    name.copy_from_slice(&head[..4]);
    name
}

/// A header in movi, or in RIFF, that has so many bytes left.
fn header_of(in_movi: bool, place: Place, left: u64, head: [u8; 8]) -> Header
    ensures { result ≡ header_of in_movi place left head }
{
    let size = LittleEndian::read_u32(&head[4..]);
    if in_movi {
        return movi_header(place, left, name_of(head), size);
    }
    riff_header(place, left, name_of(head), size)
}

/// The next chunk of movi, or of RIFF, that has so many bytes left.
#[tactic(auto, unfolding(crate::specs::Internal::Hears::sized_turn))]
fn read_sized<R: ByteIn>(
    input: &mut R,
    in_movi: bool,
    place: Place,
    left: u64,
) -> Result<Option<Turn>, FileFault>
    ensures answer { Answers (λ (t : Option Turn). t) (sized_turn in_movi place left)
        (passage R.remaining R.failures input.old input.new) result }
    ensures more { IfOk result (λ t. t ≡ None → ⊥) }
{
    if left < 8 {
        return Ok(Some(fault_turn(place, FileFault::Truncated, &[])));
    }
    let mut head = [0u8; 8];
    take(input, &mut head)?;
    let header = header_of(in_movi, place, left, head);
    read_behind(input, in_movi, place, header, head)
}

/// A chunk in an RIFF or a movi without size, after its name.
#[tactic(auto, unfolding(crate::specs::Internal::Hears::named_turn))]
fn read_named<R: ByteIn>(
    input: &mut R,
    place: Place,
    name: [u8; 4],
) -> Result<Option<Turn>, FileFault>
    ensures answer { Answers (λ (t : Option Turn). t) (named_turn place name)
        (passage R.remaining R.failures input.old input.new) result }
    ensures more { IfOk result (λ t. t ≡ None → ⊥) }
{
    let mut size = [0u8; 4];
    take(input, &mut size)?;
    let head = header_bytes(&name, &size);
    let in_movi = goes_on(place.open_in, name);
    let header = header_of(in_movi, place, place.input.saturating_sub(1), head);
    read_behind(input, in_movi, place, header, head)
}

/// An RIFF there, after its name.
#[tactic(auto, unfolding(crate::specs::Internal::Hears::further_turn))]
fn read_further<R: ByteIn>(
    input: &mut R,
    place: Place,
    name: [u8; 4],
) -> Result<Option<Turn>, FileFault>
    ensures answer { Answers (λ (t : Option Turn). t) (further_turn place name)
        (passage R.remaining R.failures input.old input.new) result }
    ensures more { IfOk result (λ t. t ≡ None → ⊥) }
{
    let mut more = [0u8; 8];
    take(input, &mut more)?;
    finish(input, place, riff_came(place, more), &joined(&name, &more))
}

/// The next chunk in an RIFF or a movi without size; None at the end of the input.
#[tactic(auto, unfolding(crate::specs::Internal::Hears::open_turn))]
fn read_open<R: ByteIn>(input: &mut R, place: Place) -> Result<Option<Turn>, FileFault>
    ensures answer { AnswersOrNone EveryRiff (λ (t : Option Turn). t) (open_turn place)
        (passage R.remaining R.failures input.old input.new) result }
    ensures stand { IfOk result (λ t. t ≡ None →
        Stand (R.remaining input.old) (R.remaining input.new) false) }
{
    let Some(name) = name_or_end(input, place.owed)? else {
        return Ok(None);
    };
    if is_name(&name, b"RIFF") {
        return read_further(input, place, name);
    }
    read_named(input, place, name)
}

/// The size and the form of an RIFF, after its name, where one may begin.
fn read_entered<R: ByteIn>(
    input: &mut R,
    place: Place,
    name: [u8; 4],
) -> Result<Option<Turn>, FileFault>
    ensures { AnswersOrNone EveryRiff (λ (t : Option Turn). t) (entered_turn place name)
        (passage R.remaining R.failures input.old input.new) result }
{
    let mut more = [0u8; 8];
    let n = take_some(input, place.owed, &mut more)?;
    if n < 8 {
        return Ok(None);
    }
    finish(input, place, riff_came(place, more), &joined(&name, &more))
}

/// The next RIFF; None if the frames end: whether bytes stand there is then said.
#[tactic(auto, unfolding(crate::specs::Internal::Hears::begun_turn))]
fn read_begun<R: ByteIn>(
    input: &mut R,
    place: Place,
    some: &mut bool,
) -> Result<Option<Turn>, FileFault>
    ensures answer { AnswersOrNone EveryRiff (λ (t : Option Turn). t) (begun_turn place)
        (passage R.remaining R.failures input.old input.new) result }
    ensures told { IfOk result (λ t. t ≡ None →
        Stand (R.remaining input.old) (R.remaining input.new) some.new) }
{
    let mut name = [0u8; 4];
    let n = take_some(input, place.owed, &mut name)?;
    *some = n > 0;
    if n < 4 {
        return Ok(None);
    }
    if is_name(&name, b"RIFF") {
        return read_entered(input, place, name);
    }
    if begins_file(&name) {
        return Ok(Some(fault_turn(place, FileFault::Another, &name)));
    }
    if place.owed == 0 {
        return Ok(None);
    }
    Ok(Some(fault_turn(place, FileFault::Truncated, &name)))
}

/// The next chunk; None at the end: whether bytes stand there is then said.
#[tactic(auto, unfolding(crate::specs::Internal::Hears::heard_turn))]
fn read_chunk<R: ByteIn>(
    input: &mut R,
    place: Place,
    some: &mut bool,
) -> Result<Option<Turn>, FileFault>
    ensures answer { AnswersOrNone EveryRiff (λ (t : Option Turn). t) (heard_turn place)
        (passage R.remaining R.failures input.old input.new) result }
    ensures some { IfOk result (λ t. t ≡ None → (text : List ℕ) →
        R.remaining input.old ≡ Some text → some.new ≡ stands Nothing place text) }
{
    *some = false;
    if place.movi > 0 {
        return read_sized(input, true, place, place.movi);
    }
    if place.input == 0 {
        return Ok(None);
    }
    if is_open(place.open_in) {
        return read_open(input, place);
    }
    if place.riff > 0 {
        return read_sized(input, false, place, place.riff);
    }
    read_begun(input, place, some)
}

/// What comes before the next chunk.
fn seeks_on(seeks: bool) -> Pending
    ensures { result ≡ seeks_on seeks }
{
    if seeks {
        let window = [0u8; 8];
        return Pending::Seeking { window };
    }
    Pending::Nothing
}

/// So many bytes are passed.
fn read_passed<R: ByteIn>(
    input: &mut R,
    count: u64,
    seeks: bool,
    place: Place,
) -> Result<Option<Turn>, FileFault>
    ensures { Answers (λ (t : Option Turn). t) (passed_turn count seeks place)
        (passage R.remaining R.failures input.old input.new) result }
{
    pass(input, count)?;
    Ok(Some(Turn::On {
        count,
        pending: seeks_on(seeks),
        place,
    }))
}

/// The next turn, by what is pending; None at the end: whether bytes stand there where an RIFF may
/// begin is then said.
#[tactic(auto, unfolding(crate::specs::Turns::turn_read))]
pub(crate) fn take_turn<R: ByteIn>(
    input: &mut R,
    pending: Pending,
    place: Place,
    some: &mut bool,
) -> Result<Option<Turn>, FileFault>
    ensures answer { AnswersOrNone EveryRiff (λ (t : Option Turn). t) (turn_read pending place)
        (passage R.remaining R.failures input.old input.new) result }
    ensures some { IfOk result (λ t. t ≡ None → (text : List ℕ) →
        R.remaining input.old ≡ Some text → some.new ≡ stands pending place text) }
{
    *some = false;
    match pending {
        Pending::Nothing => read_chunk(input, place, some),
        Pending::Passing { count, seeks } => read_passed(input, count, seeks, place),
        Pending::Seeking { window } => seek_turn(input, window, place),
    }
}
