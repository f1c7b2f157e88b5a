//! The rows of a slice's cells, read from its picture.

ghost use Rattle.std.specs.Prelude.{vec_capacity, OnErr, ◌⊎◌};
ghost use Rattle.std.specs.Prelude.{◌≡◌, ◌+◌, ◌*◌, ◌^◌, ◌<◌, ◌≤◌, ℕ, length, replicate, OnOk, true};
ghost use Rattle.ffv1_samples.specs.Samples.{AreBelow, numbers_of_pairs, sample_bytes, samples_of};
ghost use Rattle.ffv1_rct.specs.Lines.{AreCoded, AreCodedIn};
ghost use Rattle.ffv1_record.specs.Configuration.{Configuration, is_rct};
ghost use Rattle.ffv1_frame.specs.Picture.{Planes, plane_count, cell_in, cell_height, coded_at};
ghost use Rattle.ffv1_frame.specs.Picture.{sample_at};
ghost use Rattle.ffv1_frame.specs.SliceList.{bits_of};
ghost use Rattle.ffv1_encode.specs.Internal.CellRows.{Rolled, Loaded, AllRolled, AllLoaded};
ghost use Rattle.ffv1_encode.specs.Internal.CellRows.{colour_rows, ColoursRolled, ColoursLoaded};
ghost use Rattle.ffv1_encode.specs.Internal.Scratch.{capacity_of_planes, capacity_of_rows};

use crate::slice::Slice;
use ffv1_frame::line_word::LineWord;
use ffv1_frame::places_of_colours::{blue_of, green_of};
use ffv1_line::{CellRows, RollingRows, Word, laws as line_laws};
use ffv1_rct::{forward_line, forward_wide, forward_words};
use ffv1_record::laws as record_laws;
use std::alloc::{AllocError, Allocator};

/// The rolling rows of the planes that are coded line by line together: one plane after the other
/// in the first of them, and in RCT Y, Cb, Cr and transparency each in its own.
#[derive(Drop)]
pub(crate) struct PlaneRows<W: Word, A: Allocator> {
    pub(crate) first: RollingRows<Vec<W, A>>,
    pub(crate) second: RollingRows<Vec<W, A>>,
    pub(crate) third: RollingRows<Vec<W, A>>,
    pub(crate) fourth: RollingRows<Vec<W, A>>,
}

/// Rows of no width. They take no memory.
fn no_rows<W: Word, A: Allocator + Copy>(alloc: A) -> RollingRows<Vec<W, A>>
    ensures { capacity_of_rows result ≡ 0 }
{
    RollingRows {
        two: Vec::new(alloc),
        one: Vec::new(alloc),
        cur: Vec::new(alloc),
    }
}

impl<W: Word, A: Allocator> PlaneRows<W, A> {
    /// Goes on to the next row of each plane.
    pub(crate) fn turn(&mut self)
        ensures rolled { (c : Configuration) (planes : Planes) (n y : ℕ) →
            AllLoaded W.samples c planes n y self.old →
            AllRolled W.samples c planes n (y + 1) self.new }
        ensures capacity { capacity_of_planes self.new ≡ capacity_of_planes self.old }
    {
        line_laws::rows_above_roll_down_the_cell();
        self.first.turn();
        self.second.turn();
        self.third.turn();
        self.fourth.turn();
    }
}

impl<W: Word, A: Allocator + Copy> PlaneRows<W, A> {
    /// Rows of no width. They take no memory.
    pub(crate) fn new(alloc: A) -> PlaneRows<W, A>
        ensures { capacity_of_planes result ≡ 0 }
    {
        PlaneRows {
            first: no_rows(alloc),
            second: no_rows(alloc),
            third: no_rows(alloc),
            fourth: no_rows(alloc),
        }
    }
}

/// The rows above the first of a cell, which are zeros (RFC 9043, 3.1), and room for it.
pub(crate) fn restart<W: LineWord, A: Allocator>(
    rows: &mut RollingRows<Vec<W, A>>,
    width: usize,
) -> Result<(), AllocError>
    ensures two { OnOk result (W.samples rows.new.two.items ≡ replicate width 0) }
    ensures one { OnOk result (W.samples rows.new.one.items ≡ replicate width 0) }
    ensures cur { OnOk result (W.samples rows.new.cur.items ≡ replicate width 0) }
    ensures two_room { vec_capacity rows.old.two ≤ vec_capacity rows.new.two }
    ensures one_room { vec_capacity rows.old.one ≤ vec_capacity rows.new.one }
    ensures cur_room { vec_capacity rows.old.cur ≤ vec_capacity rows.new.cur }
    ensures full { OnErr result ((vec_capacity rows.old.two < width)
        ⊎ (vec_capacity rows.old.one < width) ⊎ (vec_capacity rows.old.cur < width)) }
{
    W::renew(&mut rows.two, width)?;
    W::renew(&mut rows.one, width)?;
    W::renew(&mut rows.cur, width)?;
    Ok(())
}

/// The same of transparency, if there is such a plane.
fn restart_transparency<W: LineWord, R: Allocator, A: Allocator, B: Allocator>(
    rows: &mut RollingRows<Vec<W, R>>,
    slice: &Slice<'_, A, B>,
) -> Result<(), AllocError>
    ensures rolled { OnOk result (slice.now.checked.now.configuration.extra_plane ≡ true →
        Rolled W.samples (cell_in slice.now.checked.now.configuration slice.now.picture.now
        slice.now.number 3) 0 rows.new) }
    ensures capacity { capacity_of_rows rows.old ≤ capacity_of_rows rows.new }
{
    line_laws::rows_above_roll_down_the_cell();
    if slice.checked.config().extra_plane {
        restart(rows, slice.cell(3).width as usize)?;
    }
    Ok(())
}

/// The rows above the first of each plane's cell in RCT, and room for it.
pub(crate) fn restart_all<W: LineWord, R: Allocator, A: Allocator, B: Allocator>(
    rows: &mut PlaneRows<W, R>,
    slice: &Slice<'_, A, B>,
) -> Result<(), AllocError>
    ensures rolled { OnOk result (AllRolled W.samples slice.now.checked.now.configuration
        slice.now.picture.now slice.now.number 0 rows.new) }
    ensures capacity { capacity_of_planes rows.old ≤ capacity_of_planes rows.new }
{
    line_laws::rows_above_roll_down_the_cell();
    restart(&mut rows.first, slice.cell(0).width as usize)?;
    restart(&mut rows.second, slice.cell(1).width as usize)?;
    restart(&mut rows.third, slice.cell(2).width as usize)?;
    restart_transparency(&mut rows.fourth, slice)?;
    Ok(())
}

/// Samples of 8 bits as they are coded.
fn widen<W: LineWord>(samples: &[u8], row: &mut [W])
    requires { length samples.now ≡ length row.old }
    ensures { W.samples row.new ≡ samples.now }
{
    for x in 0..row.len() {
        W::write(row, x, u32::from(samples[x]));
    }
}

/// Samples of more than 8 bits, each of two bytes, the low byte first.
fn widen_pairs<W: LineWord>(samples: &[u8], row: &mut [W])
    requires { length samples.now ≡ 2 * length row.old }
    ensures { W.samples row.new ≡ numbers_of_pairs samples.now }
{
    for x in 0..row.len() {
        W::write(
            row,
            x,
            u32::from(samples[2 * x]) + 256 * u32::from(samples[2 * x + 1]),
        );
    }
}

/// Samples of a depth as they are coded.
fn widen_to<W: LineWord>(depth: u32, samples: &[u8], row: &mut [W])
    requires { length samples.now ≡ sample_bytes depth * length row.old }
    ensures { W.samples row.new ≡ samples_of depth samples.now }
{
    if depth == 8 {
        return widen(samples, row);
    }
    widen_pairs(samples, row)
}

/// The same into a row that is kept.
fn fill<W: LineWord, R: Allocator>(depth: u32, samples: &[u8], row: &mut Vec<W, R>)
    requires { length samples.now ≡ sample_bytes depth * length row.old.items }
    ensures filled { W.samples row.new.items ≡ samples_of depth samples.now }
    ensures capacity { vec_capacity row.new ≡ vec_capacity row.old }
{
    widen_to(depth, samples, row.as_mut_slice());
}

/// The transform of lines of red, green and blue into rows that are kept.
fn transform<R: Allocator>(
    red: &[u8],
    green: &[u8],
    blue: &[u8],
    y: &mut Vec<u16, R>,
    cb: &mut Vec<u16, R>,
    cr: &mut Vec<u16, R>,
)
    requires green { length green.now ≡ length red.now }
    requires blue { length blue.now ≡ length red.now }
    requires y { length y.old.items ≡ length red.now }
    requires cb { length cb.old.items ≡ length red.now }
    requires cr { length cr.old.items ≡ length red.now }
    ensures coded { AreCoded (length red.now) red.now green.now blue.now y.new.items cb.new.items
        cr.new.items }
    ensures y { length y.new.items ≡ length red.now }
    ensures cb { length cb.new.items ≡ length red.now }
    ensures cr { length cr.new.items ≡ length red.now }
    ensures y_capacity { vec_capacity y.new ≡ vec_capacity y.old }
    ensures cb_capacity { vec_capacity cb.new ≡ vec_capacity cb.old }
    ensures cr_capacity { vec_capacity cr.new ≡ vec_capacity cr.old }
{
    forward_line(
        red,
        green,
        blue,
        y.as_mut_slice(),
        cb.as_mut_slice(),
        cr.as_mut_slice(),
    );
}

/// The transform of lines of red, green and blue of 16 bits, in place.
fn transform_wide(depth: u32, first: &mut [u32], second: &mut [u32], third: &mut [u32])
    requires depth { depth ≡ 16 }
    requires second { length second.old ≡ length first.old }
    requires third { length third.old ≡ length first.old }
    requires red { AreBelow (2 ^ depth) first.old }
    requires green { AreBelow (2 ^ depth) second.old }
    requires blue { AreBelow (2 ^ depth) third.old }
    ensures { AreCodedIn depth (length first.old) first.old second.old third.old first.new
        second.new third.new }
{
    forward_wide(first, second, third);
}

/// Words in whose lines samples of more than 8 bits are transformed.
pub(crate) trait RowWord: LineWord {
    /// The transform of lines of red, green and blue of more than 8 bits, in place.
    fn transform(depth: u32, first: &mut [Self], second: &mut [Self], third: &mut [Self])
        requires bits { Self.holds (depth + 1) }
        requires second { length (Self.samples second.old) ≡ length (Self.samples first.old) }
        requires third { length (Self.samples third.old) ≡ length (Self.samples first.old) }
        requires red { AreBelow (2 ^ depth) (Self.samples first.old) }
        requires green { AreBelow (2 ^ depth) (Self.samples second.old) }
        requires blue { AreBelow (2 ^ depth) (Self.samples third.old) }
        ensures coded { AreCodedIn depth (length (Self.samples first.old))
            (Self.samples first.old) (Self.samples second.old) (Self.samples third.old)
            (Self.samples first.new) (Self.samples second.new) (Self.samples third.new) }
        ensures y { length (Self.samples first.new) ≡ length (Self.samples first.old) }
        ensures cb { length (Self.samples second.new) ≡ length (Self.samples first.old) }
        ensures cr { length (Self.samples third.new) ≡ length (Self.samples first.old) };
}

impl RowWord for u16 {
    fn transform(depth: u32, first: &mut [u16], second: &mut [u16], third: &mut [u16]) {
        forward_words(first, second, third, depth as u8);
    }
}

impl RowWord for u32 {
    fn transform(depth: u32, first: &mut [u32], second: &mut [u32], third: &mut [u32]) {
        transform_wide(depth, first, second, third);
    }
}

/// The same in rows that are kept.
fn transform_words<W: RowWord, R: Allocator>(
    depth: u32,
    first: &mut Vec<W, R>,
    second: &mut Vec<W, R>,
    third: &mut Vec<W, R>,
)
    requires bits { W.holds (depth + 1) }
    requires second { length (W.samples second.old.items) ≡ length (W.samples first.old.items) }
    requires third { length (W.samples third.old.items) ≡ length (W.samples first.old.items) }
    requires red { AreBelow (2 ^ depth) (W.samples first.old.items) }
    requires green { AreBelow (2 ^ depth) (W.samples second.old.items) }
    requires blue { AreBelow (2 ^ depth) (W.samples third.old.items) }
    ensures coded { AreCodedIn depth (length (W.samples first.old.items))
        (W.samples first.old.items) (W.samples second.old.items) (W.samples third.old.items)
        (W.samples first.new.items) (W.samples second.new.items) (W.samples third.new.items) }
    ensures y { length (W.samples first.new.items) ≡ length (W.samples first.old.items) }
    ensures cb { length (W.samples second.new.items) ≡ length (W.samples first.old.items) }
    ensures cr { length (W.samples third.new.items) ≡ length (W.samples first.old.items) }
    ensures y_capacity { vec_capacity first.new ≡ vec_capacity first.old }
    ensures cb_capacity { vec_capacity second.new ≡ vec_capacity second.old }
    ensures cr_capacity { vec_capacity third.new ≡ vec_capacity third.old }
{
    W::transform(
        depth,
        first.as_mut_slice(),
        second.as_mut_slice(),
        third.as_mut_slice(),
    );
}

/// A plane of a slice whose samples are coded as they are.
#[derive(Drop)]
pub(crate) struct SlicePlane<'a, 's, A: Allocator, B: Allocator> {
    pub(crate) slice: &'a Slice<'s, A, B>,
    pub(crate) plane: u32,
    ghost there: { plane < plane_count slice.now.checked.now.configuration },
    ghost plain: { (u v : ℕ) →
        coded_at slice.now.checked.now.configuration slice.now.picture.now plane u v
        ≡ sample_at slice.now.checked.now.configuration slice.now.picture.now plane u v },
}

impl<'a, 's, A: Allocator, B: Allocator> CellRows for SlicePlane<'a, 's, A, B> {
    ghost cell = { λ p. cell_in p.slice.now.checked.now.configuration p.slice.now.picture.now
        p.slice.now.number p.plane };

    ghost rows = { λ p. cell_height p.slice.now.checked.now.configuration p.slice.now.number
        p.plane };

    fn height(&self) -> u32 {
        self.slice.cell(self.plane).height
    }

    fn load(&self, y: u32, line: &mut [u16]) {
        let slice = self.slice;
        widen_to(slice.checked.depth(), slice.line(self.plane, y), line);
    }
}

/// Row y of a plane whose samples are coded as they are.
fn load<W: LineWord, R: Allocator, A: Allocator, B: Allocator>(
    rows: &mut RollingRows<Vec<W, R>>,
    slice: &Slice<'_, A, B>,
    plane: u32,
    y: u32,
)
    requires plane { plane < plane_count slice.now.checked.now.configuration }
    requires inside { y < cell_height slice.now.checked.now.configuration slice.now.number plane }
    requires plain { (u v : ℕ) →
        coded_at slice.now.checked.now.configuration slice.now.picture.now plane u v
        ≡ sample_at slice.now.checked.now.configuration slice.now.picture.now plane u v }
    requires rolled { Rolled W.samples
        (cell_in slice.now.checked.now.configuration slice.now.picture.now slice.now.number plane) y
        rows.old }
    ensures loaded { Loaded W.samples
        (cell_in slice.now.checked.now.configuration slice.now.picture.now slice.now.number plane) y
        rows.new }
    ensures capacity { capacity_of_rows rows.new ≡ capacity_of_rows rows.old }
{
    fill(slice.checked.depth(), slice.line(plane, y), &mut rows.cur);
}

/// Row y of transparency in RCT, if there is such a plane.
fn load_transparency<W: LineWord, R: Allocator, A: Allocator, B: Allocator>(
    rows: &mut RollingRows<Vec<W, R>>,
    slice: &Slice<'_, A, B>,
    y: u32,
)
    requires inside { y < cell_height slice.now.checked.now.configuration slice.now.number 0 }
    requires rolled { slice.now.checked.now.configuration.extra_plane ≡ true →
        Rolled W.samples (cell_in slice.now.checked.now.configuration slice.now.picture.now
        slice.now.number 3) y rows.old }
    ensures loaded { slice.now.checked.now.configuration.extra_plane ≡ true →
        Loaded W.samples (cell_in slice.now.checked.now.configuration slice.now.picture.now
        slice.now.number 3) y rows.new }
    ensures capacity { capacity_of_rows rows.new ≡ capacity_of_rows rows.old }
{
    if slice.checked.config().extra_plane {
        load(rows, slice, 3, y);
    }
}

/// Row y of Y, Cb and Cr in RCT, of samples of 8 bits.
fn load_bytes<R: Allocator, A: Allocator, B: Allocator>(
    first: &mut RollingRows<Vec<u16, R>>,
    second: &mut RollingRows<Vec<u16, R>>,
    third: &mut RollingRows<Vec<u16, R>>,
    slice: &Slice<'_, A, B>,
    y: u32,
)
    requires depth { slice.now.checked.now.configuration.depth ≡ 8 }
    requires rct { is_rct slice.now.checked.now.configuration.colour ≡ true }
    requires inside { y < cell_height slice.now.checked.now.configuration slice.now.number 0 }
    requires rolled { ColoursRolled ⟦<u16 as Word>⟧.samples slice.now.checked.now.configuration
        slice.now.picture.now slice.now.number y (colour_rows first.old second.old third.old) }
    ensures loaded { ColoursLoaded ⟦<u16 as Word>⟧.samples slice.now.checked.now.configuration
        slice.now.picture.now slice.now.number y (colour_rows first.new second.new third.new) }
    ensures first { capacity_of_rows first.new ≡ capacity_of_rows first.old }
    ensures second { capacity_of_rows second.new ≡ capacity_of_rows second.old }
    ensures third { capacity_of_rows third.new ≡ capacity_of_rows third.old }
{
    record_laws::accepted_configuration_has_sound_parts();
    let _config = slice.checked.config();
    transform(
        slice.line(0, y),
        slice.line(1, y),
        slice.line(2, y),
        &mut first.cur,
        &mut second.cur,
        &mut third.cur,
    );
}

/// The same of samples of more than 8 bits.
fn load_words<W: RowWord, R: Allocator, A: Allocator, B: Allocator>(
    first: &mut RollingRows<Vec<W, R>>,
    second: &mut RollingRows<Vec<W, R>>,
    third: &mut RollingRows<Vec<W, R>>,
    slice: &Slice<'_, A, B>,
    y: u32,
)
    requires bits { W.holds (bits_of slice.now.checked.now.configuration) }
    requires rct { is_rct slice.now.checked.now.configuration.colour ≡ true }
    requires inside { y < cell_height slice.now.checked.now.configuration slice.now.number 0 }
    requires rolled { ColoursRolled W.samples slice.now.checked.now.configuration
        slice.now.picture.now slice.now.number y (colour_rows first.old second.old third.old) }
    ensures loaded { ColoursLoaded W.samples slice.now.checked.now.configuration
        slice.now.picture.now slice.now.number y (colour_rows first.new second.new third.new) }
    ensures first { capacity_of_rows first.new ≡ capacity_of_rows first.old }
    ensures second { capacity_of_rows second.new ≡ capacity_of_rows second.old }
    ensures third { capacity_of_rows third.new ≡ capacity_of_rows third.old }
{
    record_laws::accepted_configuration_has_sound_parts();
    let _config = slice.checked.config();
    let depth = slice.checked.depth();
    let green = green_of(slice.checked);
    let blue = blue_of(slice.checked);
    fill(depth, slice.line(0, y), &mut first.cur);
    fill(depth, slice.line(green, y), &mut second.cur);
    fill(depth, slice.line(blue, y), &mut third.cur);
    transform_words(depth, &mut first.cur, &mut second.cur, &mut third.cur);
}

/// Words in whose lines the colours of a line are transformed.
pub(crate) trait ColourWord: RowWord {
    /// Row y of Y, Cb and Cr in RCT.
    fn load_colours<R: Allocator, A: Allocator, B: Allocator>(
        first: &mut RollingRows<Vec<Self, R>>,
        second: &mut RollingRows<Vec<Self, R>>,
        third: &mut RollingRows<Vec<Self, R>>,
        slice: &Slice<'_, A, B>,
        y: u32,
    )
        requires bits { Self.holds (bits_of slice.now.checked.now.configuration) }
        requires rct { is_rct slice.now.checked.now.configuration.colour ≡ true }
        requires inside { y < cell_height slice.now.checked.now.configuration slice.now.number 0 }
        requires rolled { ColoursRolled Self.samples slice.now.checked.now.configuration
            slice.now.picture.now slice.now.number y (colour_rows first.old second.old third.old) }
        ensures loaded { ColoursLoaded Self.samples slice.now.checked.now.configuration
            slice.now.picture.now slice.now.number y (colour_rows first.new second.new third.new) }
        ensures first { capacity_of_rows first.new ≡ capacity_of_rows first.old }
        ensures second { capacity_of_rows second.new ≡ capacity_of_rows second.old }
        ensures third { capacity_of_rows third.new ≡ capacity_of_rows third.old };
}

impl ColourWord for u16 {
    fn load_colours<R: Allocator, A: Allocator, B: Allocator>(
        first: &mut RollingRows<Vec<u16, R>>,
        second: &mut RollingRows<Vec<u16, R>>,
        third: &mut RollingRows<Vec<u16, R>>,
        slice: &Slice<'_, A, B>,
        y: u32,
    ) {
        if slice.checked.depth() == 8 {
            return load_bytes(first, second, third, slice, y);
        }
        load_words(first, second, third, slice, y)
    }
}

impl ColourWord for u32 {
    fn load_colours<R: Allocator, A: Allocator, B: Allocator>(
        first: &mut RollingRows<Vec<u32, R>>,
        second: &mut RollingRows<Vec<u32, R>>,
        third: &mut RollingRows<Vec<u32, R>>,
        slice: &Slice<'_, A, B>,
        y: u32,
    ) {
        load_words(first, second, third, slice, y)
    }
}

/// Row y of Y, Cb and Cr in RCT, and of transparency if there is such a plane.
pub(crate) fn load_all<W: ColourWord, R: Allocator, A: Allocator, B: Allocator>(
    rows: &mut PlaneRows<W, R>,
    slice: &Slice<'_, A, B>,
    y: u32,
)
    requires bits { W.holds (bits_of slice.now.checked.now.configuration) }
    requires rct { is_rct slice.now.checked.now.configuration.colour ≡ true }
    requires inside { y < cell_height slice.now.checked.now.configuration slice.now.number 0 }
    requires rolled { AllRolled W.samples slice.now.checked.now.configuration slice.now.picture.now
        slice.now.number y rows.old }
    ensures loaded { AllLoaded W.samples slice.now.checked.now.configuration
        slice.now.picture.now slice.now.number y rows.new }
    ensures capacity { capacity_of_planes rows.new ≡ capacity_of_planes rows.old }
{
    W::load_colours(&mut rows.first, &mut rows.second, &mut rows.third, slice, y);
    load_transparency(&mut rows.fourth, slice, y);
}
