//! Does what an order asks for, by what does its parts.

ghost use Rattle.std.specs.Prelude.{◌≡◌, ◌≤◌, IfErr, IfOk, true};
ghost use Rattle.ffv1_orders.specs.Looked.{paths_of};
ghost use Rattle.ffv1_orders.specs.Orders.{ChecksAll, ComparingOf, Does, DoesOrder, Doing};
ghost use Rattle.ffv1_orders.specs.Orders.{LookingAt, LooksAll, NamingOf, Packing, UnpackingOf};
ghost use Rattle.ffv1_orders.specs.Orders.{looks_at_files, looks_in, names_files, names_in};
ghost use Rattle.ffv1_orders.specs.Statuses.{IsComparingRefusal, IsLookingRefusal, IsMakingRefusal};
ghost use Rattle.ffv1_orders.specs.Statuses.{IsStatus, makes_file};
ghost use Rattle.ffv1_orders.specs.declared.orders.Looking.TheVariants as looking;

use crate::checking::Checking;
use crate::comparing::Comparing;
use crate::hashing::Hashing;
use crate::informing::Informing;
use crate::making::Making;
use crate::met::Met;
use crate::refusal::Refusal;
use crate::several::{self, Looks};
use crate::statuses::tell;
use crate::telling::Telling;
use crate::told::Paths;
use crate::unpacking::Unpacking;
use ffv1_files::Notes;
use ffv1_words::{Choice, ContainerChoice, Order};
use std::io;

/// What is done with each file of an order.
#[derive(Clone, Copy)]
pub enum Looking {
    /// It is checked so.
    Check(Checking),
    /// It is shown, with what its frames cost or without.
    Show { cost: bool },
    /// Its facts are printed so.
    Info(Informing),
    /// The MD5s of its pictures are printed so.
    FrameMd5(Hashing),
    /// Its picture is coded and decoded again.
    Trial,
}

impl Looking {
    /// Whether a line of the path of each of several files is printed.
    pub fn names_files(self) -> bool
        ensures { result ≡ names_files self }
    {
        match self {
            Looking::Check(checking) => checking.told.is_of_frames(),
            Looking::Info(informing) => !informing.json,
            Looking::Show { .. } | Looking::FrameMd5(_) | Looking::Trial => true,
        }
    }
}

/// What does the parts of orders.
pub trait Doer {
    /// A video was packed.
    ghost packs: { Packing Self };

    /// A file was unpacked.
    ghost unpacks: { UnpackingOf Self };

    /// A file was compared with a list.
    ghost compares: { ComparingOf Self };

    /// A line of a path was to be printed.
    ghost names: { NamingOf Self };

    /// A file was looked at.
    ghost looks: { LookingAt Self };

    /// Packs a video into a file.
    fn pack(
        &mut self,
        files: &Making<'_>,
        container: ContainerChoice,
        choice: &Choice,
    ) -> Result<Notes, Refusal>
        ensures packs { packs self.old files.now container choice.now result self.new }
        ensures refused { IfErr result (IsMakingRefusal files.now.no_clobber) };

    /// Unpacks frames of a file into a text, or all of one that may be damaged.
    fn unpack(&mut self, files: &Making<'_>, how: Unpacking) -> Result<Notes, Refusal>
        ensures unpacks { unpacks self.old files.now how result self.new }
        ensures refused { IfErr result (IsMakingRefusal files.now.no_clobber) };

    /// Compares a file with a list of MD5s. Answers also the path of what is refused.
    fn compare<'a>(&mut self, comparing: Comparing<'a>) -> (Paths<'a>, Result<Notes, Refusal>)
        ensures compares { compares self.old comparing.entry result.1 self.new }
        ensures refused { IfErr result.1 IsComparingRefusal };

    /// Prints a line of a path, unless none is asked for. Answers false if it could not be printed.
    fn name(&mut self, looking: Looking, path: &str) -> bool
        ensures { names self.old looking path.now result self.new };

    /// Looks at the file of a path.
    fn look(&mut self, looking: Looking, path: &str) -> Result<Notes, Refusal>
        ensures looks { looks self.old looking path.now result self.new }
        ensures fault { IfErr result IsLookingRefusal };
}

/// What looks at files in one way.
#[derive(Drop)]
pub struct Looker<D> {
    doer: D,
    looking: Looking,
}

impl<D: Doer> Looks for Looker<D> {
    ghost names = { names_in D.names };

    ghost looks = { looks_in D.looks };

    fn name(&mut self, path: &str) -> bool {
        let looking = self.looking;
        self.doer.name(looking, path)
    }

    fn look(&mut self, path: &str) -> Result<Notes, Refusal> {
        let looking = self.looking;
        self.doer.look(looking, path)
    }
}

/// Looks at all files of an order in one way. Answers the exit status.
fn look_all<D: Doer>(
    rt: &impl Eprint,
    met: &Met,
    doer: D,
    looking: Looking,
    paths: &[&str],
) -> (D, io::Result<u8>)
    ensures looked { LooksAll (record {
      packs = D.packs;
      unpacks = D.unpacks;
      compares = D.compares;
      names = D.names;
      looks = D.looks;
    }) doer looking (paths_of paths.entry.now) result.1
        result.0 }
    ensures small { IfOk result.1 (λ status. status ≤ 1) }
{
    let mut looker = Looker { doer, looking };
    let status = several::look_all(rt, met, &mut looker, paths);
    (looker.doer, status)
}

/// Checks one file or several, or compares one with a list of MD5s. Answers the exit status.
fn check_all<D: Doer>(
    rt: &impl Eprint,
    met: &Met,
    doer: D,
    checking: Checking,
    inputs: &[&str],
    against: Option<&str>,
) -> (D, io::Result<u8>)
    ensures checked { ChecksAll (record {
      packs = D.packs;
      unpacks = D.unpacks;
      compares = D.compares;
      names = D.names;
      looks = D.looks;
    }) doer checking against.entry inputs.entry.now result.1 result.0 }
    ensures small { IfOk result.1 (λ status. status ≤ 1) }
{
    let looking = Looking::Check(checking);
    let Some(list) = against else {
        return look_all(rt, met, doer, looking, inputs);
    };
    let Some(input) = inputs.first() else {
        return look_all(rt, met, doer, looking, inputs);
    };
    let comparing = Comparing {
        input,
        list,
        told: checking.told,
        progress: checking.progress,
        notes_as_faults: checking.notes_as_faults,
    };
    let mut doer = doer;
    let (paths, done) = doer.compare(comparing);
    (doer, tell(rt, met, paths, done))
}

/// Packs a video into a file, and says on standard error why if that is refused. Answers the exit
/// status.
fn pack_file<D: Doer>(
    rt: &impl Eprint,
    met: &Met,
    doer: D,
    files: &Making<'_>,
    container: ContainerChoice,
    choice: &Choice,
) -> (D, io::Result<u8>)
    ensures does { Does (D.packs doer files.now container choice.now) result.1 result.0 }
    ensures status { IfOk result.1 (IsStatus true) }
{
    let mut doer = doer;
    let done = doer.pack(files, container, choice);
    (doer, tell(rt, met, files.paths(), done))
}

/// Unpacks frames of a file, and says on standard error why if that is refused. Answers the exit
/// status.
fn unpack_file<D: Doer>(
    rt: &impl Eprint,
    met: &Met,
    doer: D,
    files: &Making<'_>,
    how: Unpacking,
) -> (D, io::Result<u8>)
    ensures does { Does (D.unpacks doer files.now how) result.1 result.0 }
    ensures status { IfOk result.1 (IsStatus true) }
{
    let mut doer = doer;
    let done = doer.unpack(files, how);
    (doer, tell(rt, met, files.paths(), done))
}

/// Looks at the files of an order that looks at each in one way. Answers the exit status.
fn look_in<D: Doer>(rt: &impl Eprint, met: &Met, doer: D, order: Order<'_>) -> (D, io::Result<u8>)
    ensures does { looks_at_files order.entry ≡ true → DoesOrder (record {
      packs = D.packs;
      unpacks = D.unpacks;
      compares = D.compares;
      names = D.names;
      looks = D.looks;
    }) doer order.entry result.1 result.0 }
    ensures small { IfOk result.1 (λ status. status ≤ 1) }
{
    match order {
        Order::Show { inputs, cost } => { look_all(rt, met, doer, Looking::Show { cost }, inputs) }
        Order::Info {
            inputs,
            count,
            json,
        } => {
            let informing = Informing::new(count, json);
            look_all(rt, met, doer, Looking::Info(informing), inputs)
        }
        Order::FrameMd5 {
            inputs,
            range,
            notes_as_faults,
        } => {
            let hashing = Hashing::new(range, notes_as_faults);
            look_all(rt, met, doer, Looking::FrameMd5(hashing), inputs)
        }
        Order::Trial { input } => look_all(rt, met, doer, Looking::Trial, &[input]),
        Order::Pack { .. } | Order::Unpack { .. } | Order::Check { .. } => (doer, Ok(0)),
    }
}

/// Makes the file of an order that makes one. Answers the exit status.
fn make_file<D: Doer>(rt: &impl Eprint, met: &Met, doer: D, order: Order<'_>) -> (D, io::Result<u8>)
    ensures does { makes_file order.entry ≡ true → DoesOrder (record {
      packs = D.packs;
      unpacks = D.unpacks;
      compares = D.compares;
      names = D.names;
      looks = D.looks;
    }) doer order.entry result.1 result.0 }
    ensures status { IfOk result.1 (IsStatus true) }
{
    match order {
        Order::Pack {
            input,
            output,
            choice,
            container,
            no_clobber,
            progress,
        } => {
            let files = Making::new(input, output, no_clobber, progress);
            pack_file(rt, met, doer, &files, container, &choice)
        }
        Order::Unpack {
            input,
            output,
            no_clobber,
            progress,
            range,
            all,
            notes_as_faults,
        } => {
            let files = Making::new(input, output, no_clobber, progress);
            let how = Unpacking::new(range, all, notes_as_faults);
            unpack_file(rt, met, doer, &files, how)
        }
        Order::Check { .. } | Order::Show { .. } | Order::Info { .. } => (doer, Ok(0)),
        Order::FrameMd5 { .. } | Order::Trial { .. } => (doer, Ok(0)),
    }
}

/// Does what an order asks for, and says on standard error what is refused. Answers what did it,
/// and the exit status.
pub fn run_order<D: Doer>(
    rt: &impl Eprint,
    met: &Met,
    doer: D,
    order: Order<'_>,
) -> (D, io::Result<u8>)
    ensures does { DoesOrder (record {
      packs = D.packs;
      unpacks = D.unpacks;
      compares = D.compares;
      names = D.names;
      looks = D.looks;
    }) doer order.entry result.1 result.0 }
    ensures status { IfOk result.1 (IsStatus (makes_file order.entry)) }
{
    match order {
        Order::Pack { .. } | Order::Unpack { .. } => make_file(rt, met, doer, order),
        Order::Check {
            inputs,
            all,
            place,
            quiet,
            json,
            progress,
            against,
            range,
            notes_as_faults,
        } => {
            let told = Telling::new(quiet, json);
            let checking = Checking::new(all, place, told, progress, range, notes_as_faults);
            check_all(rt, met, doer, checking, inputs, against)
        }
        Order::Show { .. } | Order::Info { .. } | Order::FrameMd5 { .. } | Order::Trial { .. } => {
            look_in(rt, met, doer, order)
        }
    }
}
