//! Configurations, and which are accepted.

ghost use Rattle.std.specs.Prelude.{◌≡◌, ◌≢◌, ℕ, ◌+◌, ◌*◌, ◌/◌, ◌^◌, ◌<◌, ◌≤◌, ◌↔◌, IsTrue};
ghost use Rattle.std.specs.Prelude.{IsFalse, IfOk, IfErr, List, length, nat_le, ◌&&◌};
ghost use Rattle.ffv1_plane.specs.Quantisation.{Set};
ghost use Rattle.ffv1_range.specs.Table.{Table, IsTable};
ghost use Rattle.ffv1_range.specs.Deltas.{IsTableOf, HaveNoTable};
ghost use Rattle.ffv1_record.specs.Configuration.{configuration_of, at_depth, is_rct, with_sets};
ghost use Rattle.ffv1_record.specs.Held.{classes_of, kept_of};
ghost use Rattle.ffv1_record.specs.Sets.{AreSets};
ghost use Rattle.ffv1_record.specs.Writable.{AreDeltas, IsWritable};
ghost use Rattle.ffv1_record.specs.Accepted.{is_sized, is_subsampled, is_transparent};
ghost use Rattle.ffv1_record.specs.Accepted.{is_divided, IsTableFor, AreMultiples, AreReached};
ghost use Rattle.ffv1_record.specs.Accepted.{are_multiples, IsFirst, PassesIn, PassesAll};
ghost use Rattle.ffv1_record.specs.Accepted.{checks, IsAccepted, IsFirstUpTo, is_depth, has_depth};
ghost use Rattle.ffv1_record.specs.Accepted.{deepest, reduced, least_coder, has_coder};

use crate::checked::Checked;
use crate::fault::RecordFault;
use crate::sets::Sets;
use ffv1_range::StateTable;
use std::alloc::{Allocator, Global};

/// How samples are coded, and which state transition table there is (RFC 9043, 4.2.3 and 4.2.4).
#[derive(Clone, Copy, Debug)]
pub enum Coder {
    /// Golomb-Rice coded samples of 8 bits; keys and heads are range coded by the standard's.
    Rice,
    /// The standard's.
    One,
    /// The standard's changed by deltas, that of state 1 first.
    Two([i32; 255]),
}

/// How colours are coded (RFC 9043, 4.2.5).
#[derive(Clone, Copy, Debug)]
pub enum Colour {
    /// One plane after the other.
    YCbCr,
    /// Red, green and blue by the reversible transform, line by line.
    Rct,
}

/// What a configuration and the heads of its slices may say.
#[derive(Clone, Copy, Debug)]
pub enum Profile {
    /// A depth of 8, and a head whose sample aspect has two numbers that are both 0, which is
    /// unknown, or neither (RFC 9043, 4.6.8 and 4.6.9). Each inner edge of the slices is a multiple
    /// of its chroma factor, so that no two slices code one sample.
    Strict,
    /// Each depth up to a greatest one, and also a head of which just one of these numbers is 0: it
    /// is read as 0:0, unknown. Slices may share a column or a line of chroma, if each column
    /// and each line of it lies in a slice. Samples of 8 bits may be Golomb-Rice coded.
    Wide,
}

/// What a stream is coded by: the parameters of RFC 9043, 4.2, but for the bits of a sample, for
/// pictures that are each a key frame, and the size of the pictures.
#[derive(Drop)]
pub struct Config<A: Allocator = Global> {
    /// The width of the pictures in samples, 1 to 8192.
    pub width: u32,
    /// Their height, 1 to 8192.
    pub height: u32,
    /// How samples are coded, and the state transition table.
    pub coder: Coder,
    /// How colours are coded.
    pub colour: Colour,
    /// Whether there are chroma planes. RCT has them.
    pub chroma_planes: bool,
    /// Whether there is a plane of transparency. It comes with chroma planes alone.
    pub extra_plane: bool,
    /// The binary logarithm of how much narrower chroma is, 0 to 2; 0 with RCT and without chroma
    /// planes.
    pub log2_h: u32,
    /// The same of how much lower it is.
    pub log2_v: u32,
    /// How many slices stand beside one another, 1 to 32, at most the width.
    pub columns: u32,
    /// How many stand below one another, 1 to 32, at most the height.
    pub rows: u32,
    /// The quantisation table sets, 1 to 8.
    pub sets: Sets<A>,
    /// Whether each slice has a parity.
    pub ec: bool,
    /// Whether the stream says that all its frames are key frames.
    pub intra: bool,
}

/// Whether each delta has a symbol, which the least number of 32 bits has not.
fn have_symbols(deltas: &[i32; 255]) -> bool
    ensures long { length deltas.now ≡ 255 }
    ensures yes { IsTrue result → AreDeltas deltas.now }
    ensures no { IsFalse result → HaveNoTable deltas.now }
{
    for k in 0..255usize {
        if deltas[k] == i32::MIN {
            return false;
        }
    }
    true
}

/// The state transition table of some deltas. Refuses with `StateTable` if they make none.
fn table_of(deltas: &[i32; 255]) -> Result<StateTable, RecordFault>
    ensures ok { IfOk result (λ t. IsTableOf deltas.now t) }
    ensures closed { IfOk result (λ t. IsTable t.floor t.one) }
    ensures long { IfOk result (λ _. length deltas.now ≡ 255) }
    ensures writable { IfOk result (λ _. AreDeltas deltas.now) }
    ensures refused { IfErr result (λ f. (f ≡ RecordFault.StateTable) × HaveNoTable deltas.now) }
{
    if !have_symbols(deltas) {
        return Err(RecordFault::StateTable);
    }
    match StateTable::with_deltas(deltas) {
        Ok(table) => Ok(table),
        Err(_) => Err(RecordFault::StateTable),
    }
}

impl Coder {
    /// The state transition table. Refuses with `StateTable` if the deltas make none.
    fn table(&self) -> Result<StateTable, RecordFault>
        ensures ok { IfOk result (λ t. IsTableFor self.now t) }
        ensures closed { IfOk result (λ t. IsTable t.floor t.one) }
        ensures writable { IfOk result (λ _. IsWritable self.now) }
        ensures refused { IfErr result
            (λ f. (f ≡ RecordFault.StateTable) × ((t : Table) → IsTableFor self.now t → ⊥)) }
    {
        match self {
            Coder::Rice => Ok(StateTable::standard()),
            Coder::One => Ok(StateTable::standard()),
            // Both arms are written out, so that the clauses are proved by arm.
            Coder::Two(deltas) => match table_of(deltas) {
                Ok(table) => Ok(table),
                Err(fault) => Err(fault),
            },
        }
    }
}

/// Whether each inner edge of a size that is divided into some parts is a multiple of the chroma
/// factor.
#[tactic(auto, unfolding(crate::specs::Accepted::are_multiples))]
pub(crate) fn are_multiples(size: u32, count: u32, log2: u32) -> bool
    requires size { size ≤ 8192 }
    requires count { count ≤ 32 }
    requires log2 { log2 ≤ 2 }
    ensures exact { IsTrue result ↔ AreMultiples size count log2 }
    ensures value { result ≡ are_multiples size count log2 }
{
    for k in 1..count {
        if k * size / count % (1 << log2) != 0 {
            return false;
        }
    }
    true
}

/// A size over a factor, given by its binary logarithm, rounded up (RFC 9043, 4.7.2 and 4.8.1).
pub fn reduced(log2: u32, size: u32) -> u32
    requires log2 { log2 ≤ 2 }
    requires size { size ≤ 8192 }
    ensures value { result ≡ reduced log2 size }
    ensures fits { result ≤ size }
{
    if log2 == 0 {
        return size;
    }
    if log2 == 1 {
        return (size + 1) / 2;
    }
    (size + 3) / 4
}

/// Whether each sample of a chroma plane, along a size that is divided into some parts, lies in a
/// part: the last part ends where the plane does.
fn reaches(size: u32, count: u32, log2: u32) -> bool
    requires size { size ≤ 8192 }
    requires some { 0 < count }
    requires count { count ≤ 32 }
    requires log2 { log2 ≤ 2 }
    ensures { IsTrue result ↔ AreReached size count log2 }
{
    let last = (count - 1) * size / count;
    last / (1 << log2) + reduced(log2, size - last) == reduced(log2, size)
}

/// Whether a depth is accepted, in bits a sample: 8, 9, 10, 12, 14 or 16 if it is not above
/// `most`.
pub(crate) fn is_depth(most: u32, depth: u32) -> bool
    ensures { result ≡ is_depth most depth }
{
    depth <= most
        && (depth == 8 || depth == 9 || depth == 10 || depth == 12 || depth == 14 || depth == 16)
}

/// The greatest depth of a profile: 8 in `Strict`, and `most` in `Wide`.
pub(crate) fn deepest(profile: Profile, most: u32) -> u32
    ensures { result ≡ deepest profile most }
{
    match profile {
        Profile::Strict => 8,
        Profile::Wide => most,
    }
}

/// The least coder_type of a profile: 1 in `Strict`, and in `Wide` 0, Golomb-Rice.
pub(crate) fn least_coder(profile: Profile) -> u32
    ensures value { result ≡ least_coder profile }
    ensures few { result ≤ 1 }
{
    match profile {
        Profile::Strict => 1,
        Profile::Wide => 0,
    }
}

/// Whether a configuration may have so many sets: 1 to 8.
fn are_so_many(count: usize) -> bool
    ensures { (ss : List Set) → length ss ≡ count →
        result ≡ (nat_le 1 (length ss) && nat_le (length ss) 8) }
{
    1 <= count && count <= 8
}

impl Colour {
    /// Whether samples are red, green and blue.
    pub fn is_rct(self) -> bool
        ensures { result ≡ is_rct self }
    {
        match self {
            Colour::YCbCr => false,
            Colour::Rct => true,
        }
    }
}

impl<A: Allocator> Config<A> {
    /// How many classes of planes have states of their own: luma, chroma, transparency.
    pub fn classes(&self) -> usize
        ensures value { result ≡ classes_of self.now.chroma_planes self.now.extra_plane }
        ensures few { result ≤ 3 }
    {
        if self.extra_plane {
            return 3;
        }
        if self.chroma_planes {
            return 2;
        }
        1
    }

    /// Whether width and height are from 1 to 8192.
    fn is_sized(&self) -> bool
        ensures { result ≡ is_sized (configuration_of self.now) }
    {
        (1 <= self.width && self.width <= 8192) && (1 <= self.height && self.height <= 8192)
    }

    /// Whether chroma planes and their factors suit one another and the colour.
    fn is_subsampled(&self) -> bool
        ensures { result ≡ is_subsampled (configuration_of self.now) }
    {
        let plain = match self.colour {
            Colour::YCbCr => true,
            Colour::Rct => false,
        };
        (self.log2_h <= 2 && self.log2_v <= 2)
            && ((self.chroma_planes || plain)
                && ((self.chroma_planes && plain) || (self.log2_h == 0 && self.log2_v == 0)))
    }

    /// Whether an extra plane comes with chroma planes.
    fn is_transparent(&self) -> bool
        ensures { result ≡ is_transparent (configuration_of self.now) }
    {
        self.chroma_planes || !self.extra_plane
    }

    /// Whether columns and rows are from 1 to 32, and each has a sample.
    fn is_divided(&self) -> bool
        ensures { result ≡ is_divided (configuration_of self.now) }
    {
        (1 <= self.columns && (self.columns <= 32 && self.columns <= self.width))
            && (1 <= self.rows && (self.rows <= 32 && self.rows <= self.height))
    }

    /// How many samples of the last lines of Cb and Cr are kept of a row of slices, for the row
    /// below it: none if no two rows share a line of chroma.
    pub(crate) fn kept(&self) -> usize
        requires sized { IsTrue (is_sized (configuration_of self.now)) }
        requires subsampled { IsTrue (is_subsampled (configuration_of self.now)) }
        requires divided { IsTrue (is_divided (configuration_of self.now)) }
        ensures value { result ≡ kept_of (configuration_of self.now) }
        ensures few { result ≤ 16384 }
    {
        if are_multiples(self.height, self.rows, self.log2_v) {
            return 0;
        }
        2 * reduced(self.log2_h, self.width) as usize
    }

    /// Whether each inner edge is a multiple of its chroma factor, in `Strict`; in `Wide`, whether
    /// each column and each line of chroma lies in a slice.
    fn is_aligned(&self, profile: Profile) -> bool
        requires sized { IsTrue (is_sized (configuration_of self.now)) }
        requires subsampled { IsTrue (is_subsampled (configuration_of self.now)) }
        requires divided { IsTrue (is_divided (configuration_of self.now)) }
        ensures { IsTrue result
            ↔ PassesIn profile RecordFault.ChromaEdge (configuration_of self.now) }
    {
        match profile {
            Profile::Strict => {
                are_multiples(self.width, self.columns, self.log2_h)
                    && are_multiples(self.height, self.rows, self.log2_v)
            }
            Profile::Wide => {
                reaches(self.width, self.columns, self.log2_h)
                    && reaches(self.height, self.rows, self.log2_v)
            }
        }
    }

    /// Whether a profile has the coder, for samples of `depth` bits: Golomb-Rice coded ones have 8,
    /// and `Strict` has none.
    fn has_coder(&self, profile: Profile, depth: u32) -> bool
        ensures { result ≡ has_coder profile (at_depth (configuration_of self.now) depth) }
    {
        match (profile, &self.coder) {
            (Profile::Strict, Coder::Rice) => false,
            (Profile::Wide, Coder::Rice) => depth == 8,
            (_, Coder::One) => true,
            (_, Coder::Two(_deltas)) => true,
        }
    }

    /// The state transition table of a configuration that is accepted in a profile with a depth of
    /// at most `most`. Refuses as `check_in` does.
    fn judged(&self, profile: Profile, depth: u32, most: u32) -> Result<StateTable, RecordFault>
        ensures depth { IfOk result
            (λ _. IsTrue (has_depth most (at_depth (configuration_of self.now) depth))) }
        ensures accepted { IfOk result
            (λ t. IsAccepted (at_depth (configuration_of self.now) depth) t) }
        ensures passes { IfOk result
            (λ _. PassesAll profile checks (at_depth (configuration_of self.now) depth)) }
        ensures refused { IfErr result
            (λ f. IsFirstUpTo profile most (at_depth (configuration_of self.now) depth) f) }
        ensures memory { IfErr result (λ f. f ≢ RecordFault.OutOfMemory) }
    {
        let _sets = self.sets.as_slice();
        match self.judged_by(self.sets.len(), profile, depth, most) {
            Ok(table) => Ok(table),
            Err(fault) => Err(fault),
        }
    }

    /// The state transition table of the configuration with `count` sets in place of its own, in a
    /// profile, for samples of `depth` bits, if it is accepted with a depth of at most `most`. Else
    /// it refuses with the first of the faults of `check_in` that stands. So a configuration is
    /// judged before its sets are stored: it takes no memory.
    pub fn judged_by(
        &self,
        count: usize,
        profile: Profile,
        depth: u32,
        most: u32,
    ) -> Result<StateTable, RecordFault>
        ensures depth { IfOk result
            (λ _. IsTrue (has_depth most (at_depth (configuration_of self.now) depth))) }
        ensures coder { IfOk result (λ t. IsTableFor self.now.coder t) }
        ensures closed { IfOk result (λ t. IsTable t.floor t.one) }
        ensures writable { IfOk result (λ _. IsWritable self.now.coder) }
        ensures passes { IfOk result (λ _. (ss : List Set) → length ss ≡ count →
            PassesAll profile checks (with_sets (at_depth (configuration_of self.now) depth) ss)) }
        ensures refused { IfErr result (λ f. (ss : List Set) → length ss ≡ count →
            IsFirstUpTo profile most (with_sets (at_depth (configuration_of self.now) depth) ss)
            f) }
        ensures memory { IfErr result (λ f. f ≢ RecordFault.OutOfMemory) }
    {
        if !self.is_sized() {
            return Err(RecordFault::Size);
        }
        if !is_depth(most, depth) {
            return Err(RecordFault::Depth);
        }
        if !self.is_subsampled() {
            return Err(RecordFault::Subsampling);
        }
        if !self.is_transparent() {
            return Err(RecordFault::ExtraPlane);
        }
        if !are_so_many(count) {
            return Err(RecordFault::Sets);
        }
        let Ok(table) = self.coder.table() else {
            return Err(RecordFault::StateTable);
        };
        if !self.is_divided() {
            return Err(RecordFault::Grid);
        }
        if !self.is_aligned(profile) {
            return Err(RecordFault::ChromaEdge);
        }
        if !self.has_coder(profile, depth) {
            return Err(RecordFault::Coder);
        }
        Ok(table)
    }

    /// The configuration, checked in the profile `Strict`. Refuses with the first of these that
    /// stands: `Size`, `Subsampling`, `ExtraPlane`, `Sets`, `StateTable`, `Grid`, `ChromaEdge`, if
    /// an inner edge is no multiple of its chroma factor, and `Coder`, if samples are Golomb-Rice
    /// coded; else accepts. It takes no memory.
    pub fn check(self) -> Result<Checked<A>, RecordFault>
        ensures ok { IfOk result (λ c. c.configuration ≡ configuration_of self) }
        ensures profile { IfOk result (λ c. c.profile ≡ Profile.Strict) }
        ensures accepted { IfOk result (λ c. IsAccepted c.configuration c.table) }
        ensures passes { IfOk result (λ c. PassesAll Profile.Strict checks c.configuration) }
        ensures refused { IfErr result (λ f. IsFirst checks (configuration_of self) f) }
        ensures memory { IfErr result (λ f. f ≢ RecordFault.OutOfMemory) }
    {
        match self.check_in(Profile::Strict, 8, 8) {
            Ok(checked) => Ok(checked),
            Err(fault) => Err(fault),
        }
    }

    /// The configuration, checked in a profile, for samples of `depth` bits; it keeps both. `most`
    /// is the greatest depth that the profile `Wide` accepts. Refuses with the first of these that
    /// stands: `Size`, `Depth`, `Subsampling`, `ExtraPlane`, `Sets`, `StateTable`, `Grid`,
    /// `ChromaEdge`, `Coder`; else accepts. `Depth` comes in `Strict` if the depth is not 8, and in
    /// `Wide` if it is not 8, 9, 10, 12, 14 or 16, or is above `most`. `ChromaEdge` comes in
    /// `Strict` if an inner edge is no multiple of its chroma factor, and in `Wide` if a column
    /// or a line of chroma lies in no slice. `Coder` comes if samples are Golomb-Rice coded, in
    /// `Strict`, and in `Wide` if the depth is not 8. It takes no memory.
    pub fn check_in(
        self,
        profile: Profile,
        depth: u32,
        most: u32,
    ) -> Result<Checked<A>, RecordFault>
        ensures depth { IfOk result
            (λ c. IsTrue (has_depth (deepest profile most) c.configuration)) }
        ensures ok { IfOk result (λ c. c.configuration ≡ at_depth (configuration_of self) depth) }
        ensures profile { IfOk result (λ c. c.profile ≡ profile) }
        ensures accepted { IfOk result (λ c. IsAccepted c.configuration c.table) }
        ensures passes { IfOk result (λ c. PassesAll profile checks c.configuration) }
        ensures refused { IfErr result (λ f. IsFirstUpTo profile (deepest profile most)
            (at_depth (configuration_of self) depth) f) }
        ensures memory { IfErr result (λ f. f ≢ RecordFault.OutOfMemory) }
    {
        match self.judged(profile, depth, deepest(profile, most)) {
            Ok(table) => Ok(Checked::new(self, depth, table, profile)),
            Err(fault) => Err(fault),
        }
    }
}
