//! Prints what a file is: facts, a line each, or an object of JSON (RFC 8259) on a line.

ghost use Rattle.std.specs.Prelude.{◌≡◌, IfErr};
ghost use Rattle.ffv1.specs.Infos.{form_of};
ghost use Rattle.ffv1.specs.Opened.{FactsIn, InformsIn, ObjectIn, without_notes};
ghost use Rattle.ffv1_orders.specs.Statuses.{IsAnyFault};

use crate::streams::info_stream;
use ffv1_files::Notes;
use ffv1_orders::{Informing, Met, Noted, Opens, Refusal, Tells};
use ffv1_outline::Form;
use ffv1_wire::ToWrite;
use std::alloc::Global;
use std::io;

/// What comes of what was printed of a file of which nothing is noted.
pub(crate) fn without_notes(printed: Result<(), Refusal>) -> Result<Notes, Refusal>
    ensures value { result ≡ without_notes printed }
    ensures fault { IfErr printed IsAnyFault → IfErr result IsAnyFault }
{
    match printed {
        Ok(()) => Ok(Notes::NONE),
        Err(refusal) => Err(refusal),
    }
}

/// How facts are written.
fn form(is_json: bool) -> Form
    ensures { result ≡ form_of is_json }
{
    if is_json { Form::Json } else { Form::Text }
}

/// Prints the facts of a file.
fn print_facts<O: Opens>(
    rt: &impl Print,
    alloc: Global,
    opener: &O,
    input: &str,
    how: Informing,
    met: &Met,
) -> Result<(), Refusal>
    ensures facts { FactsIn (O.opens opener.now input.now) (O.misses opener.now input.now)
        O.Reader.remaining O.Reader.failures how result }
    ensures fault { IfErr result IsAnyFault }
{
    let reader = opener.open(input, false)?;
    let mut writer = ToWrite::new(Noted::new(met, io::writer(rt)));
    info_stream(alloc, reader, &mut writer, form(how.json), how.count)
}

/// Prints the facts of a file as an object of JSON on a line, whose last member is why the file is
/// refused.
fn print_object<O: Opens + Tells>(
    rt: &impl Print,
    alloc: Global,
    opener: &O,
    input: &str,
    how: Informing,
    met: &Met,
) -> Result<(), Refusal>
    ensures facts { ObjectIn (O.opens opener.now input.now) (O.misses opener.now input.now)
        O.Reader.remaining O.Reader.failures (O.begins opener.now input.now) (O.ends opener.now)
        how result }
    ensures fault { IfErr result IsAnyFault }
{
    opener.begin(alloc, input)?;
    let done = print_facts(rt, alloc, opener, input, how, met);
    opener.end(alloc, done)?;
    done
}

/// Prints what a file is. A fault comes after the facts that were read before it: `Read` if the
/// file cannot be opened, `Write` if a fact cannot be printed, `OutOfMemory` if memory is refused.
pub fn run_info<O: Opens + Tells>(
    rt: &impl Print,
    alloc: Global,
    opener: &O,
    input: &str,
    how: Informing,
    met: &Met,
) -> Result<Notes, Refusal>
    ensures facts { InformsIn (O.opens opener.now input.now) (O.misses opener.now input.now)
        O.Reader.remaining O.Reader.failures (O.begins opener.now input.now) (O.ends opener.now)
        how result }
    ensures fault { IfErr result IsAnyFault }
{
    if how.json {
        return without_notes(print_object(rt, alloc, opener, input, how, met));
    }
    without_notes(print_facts(rt, alloc, opener, input, how, met))
}
