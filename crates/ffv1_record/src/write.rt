//! Writes a configuration record.

ghost use Rattle.std.specs.Prelude.{◌≡◌, ℕ, ◌+◌, ◌-◌, ◌*◌, ◌^◌, ◌≤◌, ◌<◌, ◌++◌, [], ◌∷◌, length};
ghost use Rattle.std.specs.Prelude.{IsTrue, OnOk, IfOk, IfErr, true, ◌≢◌, slice_index_or, pos};
ghost use Rattle.std.specs.Prelude.{negsuc};
ghost use Rattle.ffv1_range.specs.Weight.{one_if};
ghost use Rattle.ffv1_range.specs.Table.{Table};
ghost use Rattle.ffv1_record.specs.Accepted.{IsTableFor};
ghost use Rattle.ffv1_plane.specs.Quantisation.{is_filled};
ghost use Rattle.ffv1_record.specs.declared.fault.RecordFault.TheVariants as fault;
ghost use Rattle.ffv1_record.specs.Configuration.{configuration_of};
ghost use Rattle.ffv1_record.specs.Writable.{AreDeltas, IsWritable};
ghost use Rattle.ffv1_record.specs.Record.{number_steps, deltas_steps, coder_steps, runs_steps};
ghost use Rattle.ffv1_record.specs.Record.{set_steps, sets_steps, uncoded_steps, planes_steps};
ghost use Rattle.ffv1_record.specs.Record.{grid_steps, closing_steps, coded_of, record_of};
ghost use Rattle.ffv1_record.specs.Record.{record_decisions, IsRecord};
ghost use Rattle.ffv1_record.specs.Internal.Written.{Wrote};

use crate::checked::Checked;
use crate::config::{Coder, Config};
use crate::fault::RecordFault;
use crate::laws;
use crate::remainder::parity;
use crate::sets::Sets;
use crate::writer::RecordWriter;
use ffv1_plane::QuantSet;
use std::alloc::Allocator;

/// The 255 deltas of coder_type 2.
fn write_deltas<A: Allocator>(
    writer: &mut RecordWriter<A>,
    deltas: &[i32; 255],
) -> Result<(), RecordFault>
    requires { (k : ℕ) → k < length deltas.now →
        slice_index_or deltas.now k (pos 0) ≢ negsuc 2147483647 }
    ensures ok { OnOk result (Wrote (λ _. deltas_steps deltas.now) 0 writer.old writer.new) }
    ensures long { length deltas.now ≡ 255 }
    ensures writable { OnOk result (AreDeltas deltas.now) }
    ensures err { IfErr result (λ f. f ≡ fault.OutOfMemory) }
{
    for k in 0..255usize {
        let delta = deltas[k];
        writer.signed_number(delta)?;
    }
    Ok(())
}

/// Coder_type and deltas.
fn write_coder<A: Allocator>(writer: &mut RecordWriter<A>, coder: &Coder) -> Result<(), RecordFault>
    requires { (t : Table) × IsTableFor coder.now t }
    ensures writable { OnOk result (IsWritable coder.now) }
    ensures ok { OnOk result (Wrote (λ _. coder_steps coder.now) 0 writer.old writer.new) }
    ensures err { IfErr result (λ f. f ≡ fault.OutOfMemory) }
{
    match coder {
        Coder::Rice => {
            writer.number(0)?;
            return Ok(());
        }
        Coder::One => {
            writer.number(1)?;
            return Ok(());
        }
        Coder::Two(deltas) => {
            writer.number(2)?;
            write_deltas(writer, deltas)?;
            return Ok(());
        }
    }
}

/// Version, micro_version and coder.
fn write_opening<A: Allocator>(
    writer: &mut RecordWriter<A>,
    coder: &Coder,
) -> Result<(), RecordFault>
    requires { (t : Table) × IsTableFor coder.now t }
    ensures writable { OnOk result (IsWritable coder.now) }
    ensures ok { OnOk result (Wrote
        (λ _. number_steps 0 3 ++ number_steps 0 4
        ++ coder_steps coder.now) 0 writer.old writer.new) }
    ensures err { IfErr result (λ f. f ≡ fault.OutOfMemory) }
{
    writer.number(3)?;
    writer.number(4)?;
    write_coder(writer, coder)?;
    Ok(())
}

/// The number of a truth value.
fn one_if(truth: bool) -> u32
    ensures { result ≡ one_if truth }
{
    u32::from(truth)
}

/// Colour, bits and chroma.
fn write_planes<A: Allocator, B: Allocator>(
    writer: &mut RecordWriter<A>,
    config: &Config<B>,
    depth: u32,
) -> Result<(), RecordFault>
    requires depth { depth ≤ 16 }
    requires log2_h { config.now.log2_h ≤ 2 }
    requires log2_v { config.now.log2_v ≤ 2 }
    ensures ok { OnOk result (Wrote
        (λ _. planes_steps depth (configuration_of config.now)) 0 writer.old writer.new) }
    ensures err { IfErr result (λ f. f ≡ fault.OutOfMemory) }
{
    writer.number(one_if(config.colour.is_rct()))?;
    writer.number(depth)?;
    writer.truth(config.chroma_planes)?;
    writer.number(config.log2_h)?;
    writer.number(config.log2_v)?;
    writer.truth(config.extra_plane)?;
    Ok(())
}

/// Columns and rows.
fn write_grid<A: Allocator, B: Allocator>(
    writer: &mut RecordWriter<A>,
    config: &Config<B>,
) -> Result<(), RecordFault>
    requires some_columns { 1 ≤ config.now.columns }
    requires columns { config.now.columns ≤ 32 }
    requires some_rows { 1 ≤ config.now.rows }
    requires rows { config.now.rows ≤ 32 }
    ensures ok { OnOk result (Wrote
        (λ _. grid_steps (configuration_of config.now)) 0 writer.old writer.new) }
    ensures err { IfErr result (λ f. f ≡ fault.OutOfMemory) }
{
    writer.number(config.columns - 1)?;
    writer.number(config.rows - 1)?;
    Ok(())
}

/// The runs of a quantisation table.
fn write_table<A: Allocator>(writer: &mut RecordWriter<A>, runs: &[u8]) -> Result<(), RecordFault>
    requires { IsTrue (is_filled runs.now) }
    ensures ok { OnOk result (Wrote (λ base. runs_steps base runs.now) 32 writer.old writer.new) }
    ensures err { IfErr result (λ f. f ≡ fault.OutOfMemory) }
{
    let mut states = [128u8; 32];
    for k in 0..runs.len() {
        writer.run(&mut states, u32::from(runs[k]) - 1)?;
    }
    Ok(())
}

/// A quantisation table set.
fn write_set<A: Allocator, B: Allocator>(
    writer: &mut RecordWriter<A>,
    set: &QuantSet<B>,
) -> Result<(), RecordFault>
    ensures ok { OnOk result (Wrote (λ base. set_steps base set.now) 160 writer.old writer.new) }
    ensures err { IfErr result (λ f. f ≡ fault.OutOfMemory) }
{
    set.is_a_bounded_set();
    write_table(writer, set.runs(0))?;
    write_table(writer, set.runs(1))?;
    write_table(writer, set.runs(2))?;
    write_table(writer, set.runs(3))?;
    write_table(writer, set.runs(4))?;
    Ok(())
}

/// Sets one after the other.
fn write_sets<A: Allocator, B: Allocator>(
    writer: &mut RecordWriter<A>,
    sets: &Sets<B>,
) -> Result<(), RecordFault>
    ensures ok { OnOk result (Wrote
        (λ base. sets_steps base sets.now) (160 * length sets.now) writer.old writer.new) }
    ensures err { IfErr result (λ f. f ≡ fault.OutOfMemory) }
{
    for index in 0..sets.len() {
        write_set(writer, sets.get(index))?;
    }
    Ok(())
}

/// That no set's initial states are coded.
fn write_uncoded<A: Allocator>(
    writer: &mut RecordWriter<A>,
    count: usize,
) -> Result<(), RecordFault>
    ensures ok { OnOk result (Wrote (λ _. uncoded_steps count) 0 writer.old writer.new) }
    ensures err { IfErr result (λ f. f ≡ fault.OutOfMemory) }
{
    for _index in 0..count {
        writer.truth(false)?;
    }
    Ok(())
}

/// The quantisation table sets.
fn write_tables<A: Allocator, B: Allocator>(
    writer: &mut RecordWriter<A>,
    sets: &Sets<B>,
) -> Result<(), RecordFault>
    requires { length sets.now ≤ 8 }
    ensures ok { OnOk result (Wrote
        (λ base. number_steps 0 (length sets.now) ++ sets_steps base sets.now
        ++ uncoded_steps (length sets.now)) (160 * length sets.now) writer.old writer.new) }
    ensures err { IfErr result (λ f. f ≡ fault.OutOfMemory) }
{
    writer.number(sets.len() as u32)?;
    write_sets(writer, sets)?;
    write_uncoded(writer, sets.len())?;
    Ok(())
}

/// Ec and intra.
fn write_closing<A: Allocator, B: Allocator>(
    writer: &mut RecordWriter<A>,
    config: &Config<B>,
) -> Result<(), RecordFault>
    ensures ok { OnOk result (Wrote
        (λ _. closing_steps (configuration_of config.now)) 0 writer.old writer.new) }
    ensures err { IfErr result (λ f. f ≡ fault.OutOfMemory) }
{
    writer.number(one_if(config.ec))?;
    writer.number(one_if(config.intra))?;
    Ok(())
}

/// The parameters by the full ending.
fn write_parameters<A: Allocator, B: Allocator>(
    alloc: A,
    checked: &Checked<B>,
) -> Result<Vec<u8, A>, RecordFault>
    ensures ok { IfOk result (λ v. v.items ≡ coded_of checked.now.configuration) }
    ensures long { IfOk result
        (λ v. length v.items ≤ length (record_decisions checked.now.configuration.depth
        checked.now.configuration) + 2) }
    ensures writable { IfOk result (λ v. IsWritable checked.now.configuration.coder) }
    ensures err { IfErr result (λ f. f ≡ fault.OutOfMemory) }
{
    let config = checked.config();
    let mut writer = RecordWriter::new(alloc);
    write_opening(&mut writer, &config.coder)?;
    write_planes(&mut writer, config, checked.depth())?;
    write_grid(&mut writer, config)?;
    write_tables(&mut writer, &config.sets)?;
    write_closing(&mut writer, config)?;
    let bytes = writer.finish()?;
    Ok(bytes)
}

/// The same, and their parity.
fn write_sealed<A: Allocator, B: Allocator>(
    alloc: A,
    checked: &Checked<B>,
) -> Result<Vec<u8, A>, RecordFault>
    ensures ok { IfOk result (λ v. v.items ≡ record_of checked.now.configuration) }
    ensures long { IfOk result
        (λ v. length v.items ≤ length (record_decisions checked.now.configuration.depth
        checked.now.configuration) + 6) }
    ensures writable { IfOk result (λ v. IsWritable checked.now.configuration.coder) }
    ensures err { IfErr result (λ f. f ≡ fault.OutOfMemory) }
{
    let mut bytes = write_parameters(alloc, checked)?;
    let tail = parity(&bytes).to_be_bytes();
    bytes.extend_from_slice(&tail)?;
    Ok(bytes)
}

/// The configuration record (RFC 9043, 4.3): the parameters by the full ending, and their parity,
/// big end first. It has at most 6 bytes more than decisions, and `read_record` gives the
/// configuration back. Refuses with `OutOfMemory` alone, if a growth was refused.
pub fn write_record<A: Allocator, B: Allocator>(
    alloc: A,
    checked: &Checked<B>,
) -> Result<Vec<u8, A>, RecordFault>
    ensures ok { IfOk result (λ v. v.items ≡ record_of checked.now.configuration) }
    ensures stored { IfOk result (λ v. IsRecord v.items checked.now.configuration) }
    ensures long { IfOk result
        (λ v. length v.items ≤ length (record_decisions checked.now.configuration.depth
        checked.now.configuration) + 6) }
    ensures writable { IfOk result (λ v. IsWritable checked.now.configuration.coder) }
    ensures err { IfErr result (λ f. f ≡ fault.OutOfMemory) }
{
    laws::written_bytes_are_a_record();
    let bytes = write_sealed(alloc, checked)?;
    Ok(bytes)
}
