//! Reads a configuration record.

ghost use Rattle.std.specs.Prelude.{◌≡◌, ◌≢◌, ◌⊎◌, ℕ, ◌+◌, ◌*◌, ◌≤◌, ◌<◌, ◌++◌, [], ◌∷◌, ◌||◌, not};
ghost use Rattle.std.specs.Prelude.{length, take, IsTrue, IfOk, IfErr, MatchResult, Result, Ok};
ghost use Rattle.std.specs.Prelude.{Err, true};
ghost use Rattle.ffv1_record.specs.declared.fault.RecordFault.TheVariants as fault;
ghost use Rattle.ffv1_record.specs.Configuration.{Configuration, configuration_of, at_depth};
ghost use Rattle.ffv1_record.specs.Accepted.{IsAccepted, PassesAll, checks, deepest, is_depth};
ghost use Rattle.ffv1_record.specs.Accepted.{has_depth, least_coder};
ghost use Rattle.ffv1_record.specs.Record.{IsRecord, depth_of};
ghost use Rattle.ffv1_record.specs.Reader.{truth, number_within};
ghost use Rattle.ffv1_record.specs.Reading.{deltas_onto, opening, depth, colour_of, planes};
ghost use Rattle.ffv1_record.specs.Reading.{count_of, table, set, sets_onto, uncoded, tables, flag};
ghost use Rattle.ffv1_record.specs.declared.fault.RecordFault.{RecordFault};
ghost use Rattle.ffv1_record.specs.Reading.{before_sets, parameters, IsRefused, ReachesSets};
ghost use Rattle.ffv1_record.specs.Reading.{first_run, first_sets_run, up_to_run, ReachesRun};
ghost use Rattle.ffv1_record.specs.Internal.Given.{Gives, IsRead};
ghost use Rattle.ffv1_range.specs.Table.{Table};
ghost use Rattle.ffv1_plane.specs.Quantisation.{is_filled, are_filled, contexts_of};

use crate::checked::Checked;
use crate::config::{Coder, Colour, Config, Profile, deepest, is_depth, least_coder};
use crate::fault::RecordFault;
use crate::judge::judge_record;
use crate::laws;
use crate::planes::Planes;
use crate::reader::RecordReader;
use crate::remainder::parity;
use crate::sets::Sets;
use ffv1_plane::QuantSet;
use ffv1_range::StateTable;
use std::alloc::{Allocator, Global};

/// The 255 deltas of coder_type 2.
fn read_deltas(reader: &mut RecordReader<'_>) -> Result<[i32; 255], RecordFault>
    ensures gives { Gives (λ ds. ds) (deltas_onto 255 []) reader.old reader.new result }
    ensures told { IfErr result (λ f. f ≢ fault.OutOfMemory) }
{
    let mut deltas = [0i32; 255];
    for k in 0..255usize {
        deltas[k] = reader.signed_number()?;
    }
    Ok(deltas)
}

/// Version, micro_version, coder_type, which is one of the profile, and deltas.
pub(crate) fn read_opening(
    reader: &mut RecordReader<'_>,
    profile: Profile,
) -> Result<Coder, RecordFault>
    ensures gives { Gives (λ c. c) (opening (least_coder profile)) reader.old reader.new result }
    ensures told { IfErr result (λ f. f ≢ fault.OutOfMemory) }
{
    reader.number_within(3, 3, RecordFault::Version)?;
    reader.number_within(4, 4, RecordFault::MicroVersion)?;
    let least = least_coder(profile);
    let kind = reader.number_within(least, 2, RecordFault::Coder)?;
    if kind == 0 {
        return Ok(Coder::Rice);
    }
    if kind == 1 {
        return Ok(Coder::One);
    }
    let deltas = read_deltas(reader)?;
    let Ok(_table) = StateTable::with_deltas(&deltas) else {
        return Err(RecordFault::StateTable);
    };
    Ok(Coder::Two(deltas))
}

/// The depth of a bits_per_raw_sample, of which 0 means 8.
fn depth_of(bits: u32) -> u32
    ensures { result ≡ depth_of bits }
{
    if bits == 0 {
        return 8;
    }
    bits
}

/// The bits of a sample, up to `most`.
fn read_depth(reader: &mut RecordReader<'_>, most: u32) -> Result<u32, RecordFault>
    ensures gives { Gives (λ n. n) (depth most) reader.old reader.new result }
    ensures told { IfErr result (λ f. f ≢ fault.OutOfMemory) }
{
    let bits = reader.number()?;
    if is_depth(most, depth_of(bits)) {
        return Ok(depth_of(bits));
    }
    Err(RecordFault::Depth)
}

/// The colour of a colorspace_type.
fn colour_of(kind: u32) -> Colour
    ensures { result ≡ colour_of kind }
{
    if kind == 0 {
        return Colour::YCbCr;
    }
    Colour::Rct
}

/// Whether an extra plane comes with chroma planes.
fn suits(chroma_planes: bool, extra_plane: bool) -> bool
    ensures { result ≡ (chroma_planes || not extra_plane) }
{
    chroma_planes || !extra_plane
}

/// Colour, bits and chroma.
pub(crate) fn read_planes(reader: &mut RecordReader<'_>, most: u32) -> Result<Planes, RecordFault>
    ensures gives { Gives (λ p. p) (planes most) reader.old reader.new result }
    ensures told { IfErr result (λ f. f ≢ fault.OutOfMemory) }
{
    let kind = reader.number_within(0, 1, RecordFault::ColourSpace)?;
    let colour = colour_of(kind);
    let depth = read_depth(reader, most)?;
    let chroma_planes = reader.truth();
    let log2_h = reader.number()?;
    let log2_v = reader.number()?;
    let extra_plane = reader.truth();
    if !suits(chroma_planes, extra_plane) {
        return Err(RecordFault::ExtraPlane);
    }
    Ok(Planes {
        colour,
        depth,
        chroma_planes,
        extra_plane,
        log2_h,
        log2_v,
    })
}

/// A count that is coded less 1.
pub(crate) fn read_count(reader: &mut RecordReader<'_>) -> Result<u32, RecordFault>
    ensures gives { Gives (λ n. n) count_of reader.old reader.new result }
    ensures told { IfErr result (λ f. f ≢ fault.OutOfMemory) }
{
    let less = reader.number()?;
    Ok(less + 1)
}

/// The runs of a quantisation table.
fn read_table<A: Allocator>(
    alloc: A,
    reader: &mut RecordReader<'_>,
) -> Result<Vec<u8, A>, RecordFault>
    ensures gives { Gives (λ v. v.items) table reader.old reader.new result }
    ensures memory { IfErr result (λ f. f ≡ fault.OutOfMemory → IsRead first_run reader.old) }
    ensures filled { IfOk result (λ v. IsTrue (is_filled v.items)) }
{
    let mut states = [128u8; 32];
    let mut runs = Vec::new(alloc);
    let mut left = 128u32;
    while left > 0 {
        let less = reader.run(&mut states, left - 1)?;
        runs.push((less + 1) as u8)?;
        left -= less + 1;
    }
    Ok(runs)
}

/// The set of five tables by their runs.
fn set_of<A: Allocator + Copy>(
    alloc: A,
    first: &[u8],
    second: &[u8],
    third: &[u8],
    fourth: &[u8],
    fifth: &[u8],
) -> Result<QuantSet<A>, RecordFault>
    requires { IsTrue (are_filled (first.now ∷ second.now ∷ third.now ∷ fourth.now ∷ fifth.now
        ∷ [])) }
    ensures ok { IfOk result (λ s. s ≡ first.now ∷ second.now ∷ third.now ∷ fourth.now ∷ fifth.now
        ∷ []) }
    ensures few { IfOk result (λ s. contexts_of s ≤ 32768) }
    ensures err { IfErr result
        (λ f. (f ≡ fault.OutOfMemory)
        ⊎ ((f ≡ fault.Contexts) × (32768 < contexts_of (first.now ∷ second.now ∷ third.now
        ∷ fourth.now ∷ fifth.now ∷ [])))) }
{
    match QuantSet::from_runs(alloc, &[first, second, third, fourth, fifth]) {
        Ok(set) => Ok(set),
        Err(ffv1_plane::Fault::Contexts) => Err(RecordFault::Contexts),
        Err(_) => Err(RecordFault::OutOfMemory),
    }
}

/// A quantisation table set.
fn read_set<A: Allocator + Copy>(
    alloc: A,
    reader: &mut RecordReader<'_>,
) -> Result<QuantSet<A>, RecordFault>
    ensures gives { Gives (λ s. s) set reader.old reader.new result }
    ensures memory { IfErr result (λ f. f ≡ fault.OutOfMemory → IsRead first_run reader.old) }
{
    let first = read_table(alloc, reader)?;
    let second = read_table(alloc, reader)?;
    let third = read_table(alloc, reader)?;
    let fourth = read_table(alloc, reader)?;
    let fifth = read_table(alloc, reader)?;
    let set = set_of(alloc, &first, &second, &third, &fourth, &fifth)?;
    Ok(set)
}

/// So many sets.
fn read_sets<A: Allocator + Copy>(
    alloc: A,
    reader: &mut RecordReader<'_>,
    count: u32,
) -> Result<Sets<A>, RecordFault>
    ensures gives { Gives (λ s. s) (sets_onto count []) reader.old reader.new result }
    ensures memory { IfErr result (λ f. f ≡ fault.OutOfMemory → IsRead first_run reader.old) }
{
    let mut sets = Sets::new(alloc);
    for _index in 0..count {
        let set = read_set(alloc, reader)?;
        sets.push(set)?;
    }
    Ok(sets)
}

/// That no set's initial states are coded.
pub(crate) fn read_uncoded(reader: &mut RecordReader<'_>, count: u32) -> Result<(), RecordFault>
    ensures gives { Gives (λ _. true) (uncoded count) reader.old reader.new result }
    ensures told { IfErr result (λ f. f ≢ fault.OutOfMemory) }
{
    for _index in 0..count {
        if reader.truth() {
            return Err(RecordFault::CodedStates);
        }
    }
    Ok(())
}

/// The quantisation table sets.
fn read_tables<A: Allocator + Copy>(
    alloc: A,
    reader: &mut RecordReader<'_>,
) -> Result<Sets<A>, RecordFault>
    ensures gives { Gives (λ s. s) tables reader.old reader.new result }
    ensures memory { IfErr result
        (λ f. f ≡ fault.OutOfMemory → IsRead (number_within 0 1 8 fault.Sets) reader.old) }
    ensures run { IfErr result (λ f. f ≡ fault.OutOfMemory → IsRead first_sets_run reader.old) }
{
    let count = reader.number_within(1, 8, RecordFault::Sets)?;
    let sets = read_sets(alloc, reader, count)?;
    read_uncoded(reader, count)?;
    Ok(sets)
}

/// A truth value that is coded as a number.
pub(crate) fn read_flag(
    reader: &mut RecordReader<'_>,
    fault: RecordFault,
) -> Result<bool, RecordFault>
    ensures gives { Gives (λ b. b) (flag fault) reader.old reader.new result }
    ensures refused { IfErr result (λ f. (f ≡ fault) ⊎ (f ≡ RecordFault.SymbolTooLong)) }
{
    let number = reader.number_within(0, 1, fault)?;
    Ok(number == 1)
}

/// All parameters in a profile: a configuration and its depth, which is at most `most`.
fn read_parameters<A: Allocator + Copy>(
    alloc: A,
    reader: &mut RecordReader<'_>,
    width: u32,
    height: u32,
    profile: Profile,
    most: u32,
) -> Result<(Config<A>, u32), RecordFault>
    ensures gives { Gives (λ r. at_depth (configuration_of r.0) r.1)
        (parameters (least_coder profile) most width height) reader.old reader.new result }
    ensures memory { IfErr result (λ f. f ≡ fault.OutOfMemory →
        IsRead (before_sets (least_coder profile) most) reader.old) }
    ensures run { IfErr result (λ f. f ≡ fault.OutOfMemory →
        IsRead (up_to_run (least_coder profile) most) reader.old) }
{
    let coder = read_opening(reader, profile)?;
    let planes = read_planes(reader, most)?;
    let columns = read_count(reader)?;
    let rows = read_count(reader)?;
    let sets = read_tables(alloc, reader)?;
    let ec = read_flag(reader, RecordFault::Ec)?;
    let intra = read_flag(reader, RecordFault::Intra)?;
    let config = Config {
        width,
        height,
        coder,
        colour: planes.colour,
        chroma_planes: planes.chroma_planes,
        extra_plane: planes.extra_plane,
        log2_h: planes.log2_h,
        log2_v: planes.log2_v,
        columns,
        rows,
        sets,
        ec,
        intra,
    };
    Ok((config, planes.depth))
}

/// The configuration of a record (RFC 9043, 4.3), for pictures of a size that the container tells,
/// in the profile `Strict`, whose depth is 8. It is refused as `read_record_in` refuses it, which
/// says when each fault comes and what it leaves.
pub fn read_record<A: Allocator + Copy>(
    alloc: A,
    bytes: &[u8],
    width: u32,
    height: u32,
) -> Result<Checked<A>, RecordFault>
    ensures found { IfOk result (λ c. IsRecord bytes.now c.configuration) }
    ensures width { IfOk result (λ c. c.configuration.width ≡ width) }
    ensures height { IfOk result (λ c. c.configuration.height ≡ height) }
    ensures depth { IfOk result (λ c. c.configuration.depth ≡ 8) }
    ensures profile { IfOk result (λ c. c.profile ≡ Profile.Strict) }
    ensures accepted { IfOk result (λ c. IsAccepted c.configuration c.table) }
    ensures passes { IfOk result (λ c. PassesAll Profile.Strict checks c.configuration) }
    ensures only { (c : Configuration) (t : Table) → c.width ≡ width → c.height ≡ height →
        c.depth ≡ 8 → IsAccepted c t → PassesAll Profile.Strict checks c → IsRecord bytes.now c →
        MatchResult result (λ r. r.configuration ≡ c) (λ f. f ≡ fault.OutOfMemory) }
    ensures exact { IfErr result
        (λ f. (f ≡ fault.OutOfMemory) ⊎ IsRefused Profile.Strict 8 bytes.now width height f) }
    ensures memory { IfErr result (λ f. f ≡ fault.OutOfMemory →
        ReachesSets Profile.Strict 8 bytes.now) }
    ensures run { IfErr result (λ f. f ≡ fault.OutOfMemory →
        ReachesRun Profile.Strict 8 bytes.now) }
    ensures sound { IfErr result (λ f. f ≡ fault.OutOfMemory → (g : RecordFault) →
        IsRefused Profile.Strict 8 bytes.now width height g → ⊥) }
{
    match read_record_in(alloc, bytes, width, height, Profile::Strict, 8) {
        Ok(checked) => Ok(checked),
        Err(fault) => Err(fault),
    }
}

/// The configuration of a record, whose sets are stored as they are read. Refuses as
/// `read_record_in` does, but for `OutOfMemory`, which may come from the first run on.
fn read_whole<A: Allocator + Copy>(
    alloc: A,
    bytes: &[u8],
    width: u32,
    height: u32,
    profile: Profile,
    most: u32,
) -> Result<Checked<A>, RecordFault>
    ensures found { IfOk result (λ c. IsRecord bytes.now c.configuration) }
    ensures width { IfOk result (λ c. c.configuration.width ≡ width) }
    ensures height { IfOk result (λ c. c.configuration.height ≡ height) }
    ensures depth { IfOk result (λ c. IsTrue (has_depth (deepest profile most) c.configuration)) }
    ensures profile { IfOk result (λ c. c.profile ≡ profile) }
    ensures accepted { IfOk result (λ c. IsAccepted c.configuration c.table) }
    ensures passes { IfOk result (λ c. PassesAll profile checks c.configuration) }
    ensures only { (c : Configuration) (t : Table) → c.width ≡ width → c.height ≡ height →
        c.depth ≤ deepest profile most → IsAccepted c t → PassesAll profile checks c →
        IsRecord bytes.now c →
        MatchResult result (λ r. r.configuration ≡ c) (λ f. f ≡ fault.OutOfMemory) }
    ensures exact { IfErr result (λ f. (f ≡ fault.OutOfMemory)
        ⊎ IsRefused profile (deepest profile most) bytes.now width height f) }
    ensures memory { IfErr result
        (λ f. f ≡ fault.OutOfMemory → ReachesSets profile (deepest profile most) bytes.now) }
    ensures run { IfErr result
        (λ f. f ≡ fault.OutOfMemory → ReachesRun profile (deepest profile most) bytes.now) }
{
    if bytes.len() < 5 {
        return Err(RecordFault::Short);
    }
    laws::parity_makes_the_remainder_zero();
    if parity(bytes) != 0 {
        return Err(RecordFault::Parity);
    }
    let mut reader = RecordReader::new(&bytes[..bytes.len() - 4])?;
    let greatest = deepest(profile, most);
    let read = read_parameters(alloc, &mut reader, width, height, profile, greatest)?;
    let (config, depth) = read;
    // Both arms are written out, so that the clauses are proved by arm.
    match config.check_in(profile, depth, most) {
        Ok(checked) => Ok(checked),
        Err(fault) => Err(fault),
    }
}

/// The configuration of a record (RFC 9043, 4.3), for pictures of a size that the container tells,
/// checked in a profile, which it keeps. `most` is the greatest depth that the profile `Wide`
/// accepts, in bits a sample.
///
/// Refuses with `Short` if there are fewer than 5 bytes; else with `Parity` if their remainder is
/// not 0; else with `BadStart` if the first two are 65280 or more; else with the first in the order
/// of the bytes of `SymbolTooLong`, `Version` to `ExtraPlane`, `StateTable`, `Runs`, `Contexts` and
/// `Sets`, each judged when its symbol has been read, the deltas after their last; else with the
/// first that `Config::check_in` finds. `Coder` comes at its symbol if that is neither 1 nor 2, nor
/// in `Wide` 0. `Depth` comes in `Strict` if the bits of a sample are not 0
/// or 8, and in `Wide` if they are not 0, 8, 9, 10, 12, 14 or 16, or are above `most`. `ChromaEdge`
/// comes in `Strict` if an inner edge of the slices is no multiple of its chroma factor, and in
/// `Wide` if a column or a line of chroma lies in no slice. `OutOfMemory` if a growth was refused,
/// which comes last: a record is judged as a whole before any memory is taken for its sets, so no
/// record that has another fault is refused for want of memory. Bytes between the parameters and
/// the parity are ignored, and 0 bits of a sample mean 8. After a refusal the bytes are as they
/// were, and may be read again.
pub fn read_record_in<A: Allocator + Copy>(
    alloc: A,
    bytes: &[u8],
    width: u32,
    height: u32,
    profile: Profile,
    most: u32,
) -> Result<Checked<A>, RecordFault>
    ensures found { IfOk result (λ c. IsRecord bytes.now c.configuration) }
    ensures width { IfOk result (λ c. c.configuration.width ≡ width) }
    ensures height { IfOk result (λ c. c.configuration.height ≡ height) }
    ensures depth { IfOk result (λ c. IsTrue (has_depth (deepest profile most) c.configuration)) }
    ensures profile { IfOk result (λ c. c.profile ≡ profile) }
    ensures accepted { IfOk result (λ c. IsAccepted c.configuration c.table) }
    ensures passes { IfOk result (λ c. PassesAll profile checks c.configuration) }
    ensures only { (c : Configuration) (t : Table) → c.width ≡ width → c.height ≡ height →
        c.depth ≤ deepest profile most → IsAccepted c t → PassesAll profile checks c →
        IsRecord bytes.now c →
        MatchResult result (λ r. r.configuration ≡ c) (λ f. f ≡ fault.OutOfMemory) }
    ensures exact { IfErr result (λ f. (f ≡ fault.OutOfMemory)
        ⊎ IsRefused profile (deepest profile most) bytes.now width height f) }
    ensures memory { IfErr result
        (λ f. f ≡ fault.OutOfMemory → ReachesSets profile (deepest profile most) bytes.now) }
    ensures run { IfErr result
        (λ f. f ≡ fault.OutOfMemory → ReachesRun profile (deepest profile most) bytes.now) }
    ensures sound { IfErr result (λ f. f ≡ fault.OutOfMemory → (g : RecordFault) →
        IsRefused profile (deepest profile most) bytes.now width height g → ⊥) }
{
    laws::bytes_are_refused_for_one_reason();
    judge_record(alloc, bytes, width, height, profile, most)?;
    // Both arms are written out, so that the clauses are proved by arm.
    match read_whole(alloc, bytes, width, height, profile, most) {
        Ok(checked) => Ok(checked),
        Err(fault) => Err(fault),
    }
}
