//! Judges a record in no memory.

ghost use Rattle.std.specs.Prelude.{◌≡◌, ◌≢◌, ℕ, ◌-◌, ◌*◌, ◌^◌, ◌≤◌, List, [], ◌∷◌, IfOk, IfErr};
ghost use Rattle.std.specs.Prelude.{length, OnOk};
ghost use Rattle.ffv1_record.specs.declared.fault.RecordFault.{RecordFault};
ghost use Rattle.ffv1_record.specs.Accepted.{deepest, least_coder};
ghost use Rattle.ffv1_plane.specs.Quantisation.{contexts_of};
ghost use Rattle.ffv1_record.specs.declared.fault.RecordFault.TheVariants as fault;
ghost use Rattle.ffv1_record.specs.Reading.{table, set, sets_onto, tables, parameters};
ghost use Rattle.ffv1_record.specs.Reading.{IsRefused};
ghost use Rattle.ffv1_record.specs.Internal.Given.{Judges};
ghost use Rattle.ffv1_record.specs.Internal.Outlines.{Outlines};

use crate::config::{Config, Profile, deepest};
use crate::fault::RecordFault;
use crate::laws;
use crate::read::{read_count, read_flag, read_opening, read_planes, read_uncoded};
use crate::reader::RecordReader;
use crate::remainder::parity;
use crate::sets::Sets;
use std::alloc::Allocator;

/// What a record says, but for its sets, of which only the number is kept.
#[derive(Drop)]
pub(crate) struct Outline<A: Allocator> {
    /// The configuration, without sets.
    pub(crate) config: Config<A>,
    /// The bits of a sample.
    pub(crate) depth: u32,
    /// How many sets there are.
    pub(crate) count: u32,
}

/// How many runs the table that comes next has.
fn judge_table(reader: &mut RecordReader<'_>) -> Result<u32, RecordFault>
    ensures judges { Judges (λ runs n. length runs ≡ n) table reader.old reader.new result }
    ensures told { IfErr result (λ f. f ≢ fault.OutOfMemory) }
    ensures few { IfOk result (λ n. n ≤ 128) }
{
    let mut states = [128u8; 32];
    let mut runs = 0;
    let mut left = 128u32;
    while left > 0 {
        let less = reader.run(&mut states, left - 1)?;
        runs += 1;
        left -= less + 1;
    }
    Ok(runs)
}

/// The scale after a table of so many runs (RFC 9043, 4.1).
fn scaled(scale: u64, runs: u32, most: u64) -> u64
    requires scale { scale ≤ most }
    requires most { most ≤ 2 ^ 40 }
    requires runs { runs ≤ 128 }
    ensures value { result ≡ scale * (2 * runs - 1) }
    ensures few { result ≤ most * 255 }
{
    scale * u64::from((2 * runs).saturating_sub(1))
}

/// How many contexts a set has, by the numbers of runs of its tables.
fn contexts_by(first: u32, second: u32, third: u32, fourth: u32, fifth: u32) -> u64
    requires first { first ≤ 128 }
    requires second { second ≤ 128 }
    requires third { third ≤ 128 }
    requires fourth { fourth ≤ 128 }
    requires fifth { fifth ≤ 128 }
    ensures { (a b c d e : List ℕ) → length a ≡ first → length b ≡ second → length c ≡ third →
        length d ≡ fourth → length e ≡ fifth →
        result ≡ contexts_of (a ∷ b ∷ c ∷ d ∷ e ∷ []) }
{
    let scale = scaled(1, first, 1);
    let scale = scaled(scale, second, 255);
    let scale = scaled(scale, third, 65025);
    let scale = scaled(scale, fourth, 16581375);
    let scale = scaled(scale, fifth, 4228250625);
    (scale + 1) / 2
}

/// That the set that comes next is one.
fn judge_set(reader: &mut RecordReader<'_>) -> Result<(), RecordFault>
    ensures judges { Judges (λ _ _. Unit {0}) set reader.old reader.new result }
    ensures told { IfErr result (λ f. f ≢ fault.OutOfMemory) }
{
    let first = judge_table(reader)?;
    let second = judge_table(reader)?;
    let third = judge_table(reader)?;
    let fourth = judge_table(reader)?;
    let fifth = judge_table(reader)?;
    if contexts_by(first, second, third, fourth, fifth) > 32768 {
        return Err(RecordFault::Contexts);
    }
    Ok(())
}

/// That so many sets come.
fn judge_sets(reader: &mut RecordReader<'_>, count: u32) -> Result<(), RecordFault>
    ensures judges { Judges (λ ss _. length ss ≡ count) (sets_onto count []) reader.old reader.new
        result }
    ensures told { IfErr result (λ f. f ≢ fault.OutOfMemory) }
{
    for _index in 0..count {
        judge_set(reader)?;
    }
    Ok(())
}

/// How many sets there are.
fn judge_tables(reader: &mut RecordReader<'_>) -> Result<u32, RecordFault>
    ensures judges { Judges (λ ss n. length ss ≡ n) tables reader.old reader.new result }
    ensures told { IfErr result (λ f. f ≢ fault.OutOfMemory) }
{
    let count = reader.number_within(1, 8, RecordFault::Sets)?;
    judge_sets(reader, count)?;
    read_uncoded(reader, count)?;
    Ok(count)
}

/// What all parameters say, but for the sets; the depth is at most `most`. No set is kept, and no
/// memory is taken.
fn judge_parameters<A: Allocator + Copy>(
    alloc: A,
    reader: &mut RecordReader<'_>,
    width: u32,
    height: u32,
    profile: Profile,
    most: u32,
) -> Result<Outline<A>, RecordFault>
    ensures judges { Judges Outlines (parameters (least_coder profile) most width height)
        reader.old reader.new result }
    ensures told { IfErr result (λ f. f ≢ fault.OutOfMemory) }
{
    let coder = read_opening(reader, profile)?;
    let planes = read_planes(reader, most)?;
    let columns = read_count(reader)?;
    let rows = read_count(reader)?;
    let count = judge_tables(reader)?;
    let ec = read_flag(reader, RecordFault::Ec)?;
    let intra = read_flag(reader, RecordFault::Intra)?;
    let config = Config {
        width,
        height,
        coder,
        colour: planes.colour,
        chroma_planes: planes.chroma_planes,
        extra_plane: planes.extra_plane,
        log2_h: planes.log2_h,
        log2_v: planes.log2_v,
        columns,
        rows,
        sets: Sets::new(alloc),
        ec,
        intra,
    };
    Ok(Outline {
        config,
        depth: planes.depth,
        count,
    })
}

/// Judges a record as a whole, in no memory. Refuses as `read_record_in` does, and never with
/// `OutOfMemory`.
pub(crate) fn judge_record<A: Allocator + Copy>(
    alloc: A,
    bytes: &[u8],
    width: u32,
    height: u32,
    profile: Profile,
    most: u32,
) -> Result<(), RecordFault>
    ensures refused { IfErr result
        (IsRefused profile (deepest profile most) bytes.now width height) }
    ensures told { IfErr result (λ f. f ≢ fault.OutOfMemory) }
    ensures sound { OnOk result ((f : RecordFault) →
        IsRefused profile (deepest profile most) bytes.now width height f → ⊥) }
{
    if bytes.len() < 5 {
        return Err(RecordFault::Short);
    }
    laws::parity_makes_the_remainder_zero();
    if parity(bytes) != 0 {
        return Err(RecordFault::Parity);
    }
    let mut reader = RecordReader::new(&bytes[..bytes.len() - 4])?;
    let greatest = deepest(profile, most);
    let outline = judge_parameters(alloc, &mut reader, width, height, profile, greatest)?;
    let Outline {
        config,
        depth,
        count,
    } = outline;
    // Both arms are written out, so that the clauses are proved by arm.
    match config.judged_by(count as usize, profile, depth, greatest) {
        Ok(_table) => Ok(()),
        Err(fault) => Err(fault),
    }
}
