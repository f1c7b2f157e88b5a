// SPDX-License-Identifier: MIT OR Apache-2.0
//! The program `ffv1`: each order is done by a call of `ffv1_engine` or `ffv1_info`, over the files
//! that `ffv1_orders` opens. What is said of an order, and its exit status, are there too.
#![tactic(auto)]

ghost use Rattle.std.specs.Prelude.{◌≡◌, ◌≤◌, IfErr, IfOk, false, true};
ghost use Rattle.std.specs.Process.{exit_status};
ghost use Rattle.ffv1.specs.Against.{TellsIn};
ghost use Rattle.ffv1.specs.Made.{PacksIn, UnpacksBy};
ghost use Rattle.ffv1.specs.Opened.{LooksIn, PrintsIn, ShowsIn, TriesIn};
ghost use Rattle.ffv1_orders.specs.Orders.{names_files};
ghost use Rattle.ffv1_orders.specs.Statuses.{IsAnyFault, IsFault, IsLookingRefusal, IsStatus};
ghost use Rattle.ffv1_orders.specs.Statuses.{makes_file};
ghost use Rattle.ffv1_unpack.specs.Show.{IsShowFault};
ghost use Rattle.ffv1_words.specs.Order.{is_matroska};
ghost use Rattle.ffv1_video.specs.declared.profile.Profile.TheVariants as profile;

mod against;
mod checking;
mod infos;
mod making;
mod streams;

use against::run_against;
use checking::run_check;
use ffv1_engine::Fault;
use ffv1_files::Notes;
use ffv1_orders::{
    Again, Comparing, Doer, Hashing, Looking, Making, Met, Noted, Opens, Paths, Refusal,
    SystemFiles, Tells, Unpacking, command, looks, noted, other_words, run_order,
};
use ffv1_wire::{ToWrite, read_byte};
use ffv1_words::{Choice, ContainerChoice, Order, words};
use infos::{run_info, without_notes};
use making::{run_pack, run_unpack, run_unpack_all};
use std::alloc::Global;
use std::io::Input;
use std::process::ExitCode;
use std::rt::Files;
use std::time::Clock;
use std::{env, io};
use streams::{framemd5_stream, show_stream, trial_stream};

/// Prints what a file says, and with `cost` what its frames cost.
fn run_show<O: Opens>(
    rt: &impl Print,
    alloc: Global,
    opener: &O,
    input: &str,
    cost: bool,
    met: &Met,
) -> Result<Notes, Refusal>
    ensures shows { ShowsIn (O.opens opener.now input.now) (O.misses opener.now input.now)
        O.Reader.remaining O.Reader.failures cost result }
    ensures fault { IfErr result IsAnyFault }
    ensures own { IfErr result (IsFault (IsShowFault profile.Wide cost)) }
{
    let mut reader = opener.open(input, false)?;
    let mut writer = ToWrite::new(Noted::new(met, io::writer(rt)));
    show_stream(alloc, &mut reader, &mut writer, cost)
}

/// Prints the MD5 of each picture of a file, or of a text, which begins with `P` or `Y`. Only
/// frames of a file are left out. What becomes of it is what is noted of the file.
fn run_framemd5<O: Opens>(
    rt: &impl Print,
    alloc: Global,
    opener: &O,
    input: &str,
    hashing: Hashing,
    met: &Met,
) -> Result<Notes, Refusal>
    ensures prints { PrintsIn (O.opens opener.now input.now) (O.misses opener.now input.now)
        O.Reader.remaining O.Reader.failures hashing result }
    ensures fault { IfErr result IsLookingRefusal }
{
    let mut source = opener.open(input, false)?;
    let Ok(first) = read_byte(&mut source) else {
        return Err(Refusal::Fault(Fault::Read));
    };
    let mut reader = Again::new(first, source);
    let mut writer = ToWrite::new(Noted::new(met, io::writer(rt)));
    let done = framemd5_stream(alloc, first, &mut reader, &mut writer, hashing.range);
    noted(hashing.notes_as_faults, done)
}

/// Codes and decodes the mono picture of a file, and prints what it found.
fn run_trial<O: Opens>(
    rt: &impl Print,
    alloc: Global,
    opener: &O,
    input: &str,
    met: &Met,
) -> Result<Notes, Refusal>
    ensures tries { TriesIn (O.opens opener.now input.now) (O.misses opener.now input.now)
        O.Reader.remaining O.Reader.failures result }
    ensures fault { IfErr result IsAnyFault }
{
    let mut reader = opener.open(input, false)?;
    let mut writer = ToWrite::new(Noted::new(met, io::writer(rt)));
    without_notes(trial_stream(alloc, &mut reader, &mut writer))
}

/// Looks at one file.
fn look<O: Opens + Tells>(
    rt: &impl Print,
    alloc: Global,
    opener: &O,
    path: &str,
    looking: Looking,
    met: &Met,
) -> Result<Notes, Refusal>
    ensures looks { LooksIn (O.opens opener.now path.now) (O.misses opener.now path.now)
        O.Reader.remaining O.Reader.failures (O.tells opener.now path.now)
        (O.begins opener.now path.now) (O.ends opener.now) looking result }
    ensures fault { IfErr result IsLookingRefusal }
{
    met.clear();
    match looking {
        Looking::Check(checking) => run_check(rt, alloc, opener, path, checking, met),
        Looking::Show { cost } => run_show(rt, alloc, opener, path, cost, met),
        Looking::Info(informing) => run_info(rt, alloc, opener, path, informing, met),
        Looking::FrameMd5(hashing) => run_framemd5(rt, alloc, opener, path, hashing, met),
        Looking::Trial => run_trial(rt, alloc, opener, path, met),
    }
}

/// What does the parts of an order by the calls of the system. Files are opened and made by what is
/// given for that, which also prints what becomes of them.
#[derive(Drop)]
pub struct BySystem<'a, R, O> {
    rt: &'a R,
    alloc: Global,
    met: &'a Met,
    opener: O,
}

impl<R: Print + Eprint, O: Opens + Tells> Doer for BySystem<'_, R, O> {
    ghost packs = { λ s files container choice outcome t. (t ≡ s)
        × PacksIn (O.opens s.opener files.input.now) (O.makes s.opener files.output.now)
        (O.refuses s.opener files) O.Reader.remaining O.Reader.failures O.Writer.contents
        O.Writer.failures O.Writer.overwrites (is_matroska container files.output.now) choice
        outcome };

    ghost unpacks = { λ s files how outcome t. (t ≡ s)
        × UnpacksBy (O.opens s.opener files.input.now) (O.makes s.opener files.output.now)
        (O.refuses s.opener files) O.Reader.remaining O.Reader.failures O.Writer.contents
        O.Writer.failures how outcome };

    ghost compares = { λ s comparing outcome t. (t ≡ s)
        × TellsIn (O.lists s.opener comparing.list.now) (O.lacks s.opener comparing.list.now)
        O.Lines.remaining O.Lines.failures (O.opens s.opener comparing.input.now)
        (O.misses s.opener comparing.input.now) O.Reader.remaining O.Reader.failures
        (O.compared s.opener) comparing outcome };

    ghost names = { λ s looking _ printed t.
        (t ≡ s) × (names_files looking ≡ false → printed ≡ true) };

    ghost looks = { λ s looking path outcome t. (t ≡ s)
        × LooksIn (O.opens s.opener path) (O.misses s.opener path) O.Reader.remaining
        O.Reader.failures (O.tells s.opener path) (O.begins s.opener path) (O.ends s.opener)
        looking outcome };

    fn pack(
        &mut self,
        files: &Making<'_>,
        container: ContainerChoice,
        choice: &Choice,
    ) -> Result<Notes, Refusal> {
        run_pack(&*self, files, container, choice)
    }

    fn unpack(&mut self, files: &Making<'_>, how: Unpacking) -> Result<Notes, Refusal> {
        if how.all {
            return run_unpack_all(&*self, files, how.notes_as_faults);
        }
        run_unpack(&*self, files, how)
    }

    fn compare<'a>(&mut self, comparing: Comparing<'a>) -> (Paths<'a>, Result<Notes, Refusal>) {
        run_against(&*self, comparing)
    }

    fn name(&mut self, looking: Looking, path: &str) -> bool {
        !looking.names_files() || self.met.printed(println!(self.rt; "file {path}")).is_ok()
    }

    fn look(&mut self, looking: Looking, path: &str) -> Result<Notes, Refusal> {
        look(self.rt, self.alloc, &self.opener, path, looking, self.met)
    }
}

/// Does what an order asks for. Answers the exit status.
fn run(
    rt: &(impl Files + Input + Print + Eprint + Clock),
    alloc: Global,
    order: Order<'_>,
) -> io::Result<u8>
    ensures { IfOk result (IsStatus (makes_file order.entry)) }
{
    let met = &Met::new();
    let opener = SystemFiles { rt, met };
    let doer = BySystem {
        rt,
        alloc,
        met,
        opener,
    };
    let (_, status) = run_order(rt, met, doer, order);
    status
}

/// Refuses the words of the command line that are not UTF-8, and looks at the other files if the
/// line names some. The status is 2.
fn rest_of_line(rt: &HostRuntime, alloc: Global) -> io::Result<ExitCode>
    ensures { IfOk result (λ code. exit_status code ≤ 2) }
{
    if let Some(arguments) = other_words(rt, alloc)? {
        let texts: Vec<&str> = arguments.iter().map(|a| a.as_str()).collect(alloc)?;
        if let Ok(order) = words(alloc, texts.as_slice()) {
            if looks(order) {
                run(rt, alloc, order)?;
            }
        }
    }
    Ok(ExitCode::from(2))
}

/// Reads the command line and does what it asks for.
fn line(rt: &HostRuntime, alloc: Global) -> io::Result<ExitCode>
    ensures { IfOk result (λ code. exit_status code ≤ 2) }
{
    let arguments: Vec<String> = match env::args(rt) {
        Ok(arguments) => arguments.collect(alloc)?,
        Err(error) if error.kind() == io::ErrorKind::InvalidData => {
            return rest_of_line(rt, alloc);
        }
        Err(error) => return Err(error),
    };
    let texts: Vec<&str> = arguments.iter().map(|a| a.as_str()).collect(alloc)?;
    let met = &Met::new();
    let opener = SystemFiles { rt, met };
    let doer = BySystem {
        rt,
        alloc,
        met,
        opener,
    };
    let (_, status) = command(rt, alloc, met, doer, texts.as_slice());
    Ok(ExitCode::from(status?))
}

fn main(rt: HostRuntime) -> ExitCode {
    match line(&rt, rt.alloc()) {
        Ok(code) => code,
        Err(_) => ExitCode::from(1),
    }
}
