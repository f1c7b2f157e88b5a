//! Compares the pictures of a file with a list of MD5s, and prints what comes of it.

ghost use Rattle.std.specs.Prelude.{◌≡◌, IfErr, IfOk};
ghost use Rattle.ffv1.specs.Against.{ComparesIn, Compares, ListsIn, TellsIn, UnlistedIn};
ghost use Rattle.ffv1.specs.Against.{list_refusal, unlike_refusal};
ghost use Rattle.ffv1.specs.Opened.{OfFile, unnoted, unread};
ghost use Rattle.ffv1_orders.specs.Statuses.{IsComparingRefusal};
ghost use Rattle.ffv1_wire.specs.Passage.{passage};

use crate::BySystem;
use ffv1_engine::{Fault, ListFault, Profile, Unlike, check_against, read_list};
use ffv1_files::Notes;
use ffv1_orders::{Comparing, Opens, Paths, Refusal, Tells, noted};
use std::alloc::Global;

/// Why an order is not done whose list is refused.
fn list_refusal(fault: ListFault) -> Refusal
    ensures value { result ≡ list_refusal fault }
    ensures refused { IsComparingRefusal result }
{
    match fault {
        ListFault::Read => Refusal::Fault(Fault::Read),
        ListFault::OutOfMemory => Refusal::Fault(Fault::OutOfMemory),
        ListFault::Line(line) => Refusal::List(line),
    }
}

/// Why an order is not done whose file is unlike a list, or has a fault.
fn unlike_refusal(unlike: Unlike) -> Refusal
    ensures value { result ≡ unlike_refusal unlike }
    ensures refused { IsComparingRefusal result }
{
    match unlike {
        Unlike::Fault(fault) => Refusal::Fault(fault),
        Unlike::Differs(frame) => Refusal::Differs(frame),
    }
}

/// The MD5s of a list.
fn md5s_of<O: Opens>(alloc: Global, opener: &O, list: &str) -> Result<Vec<u128>, Refusal>
    ensures listed { IfOk result (λ md5s. ListsIn (O.lists opener.now list.now)
        (O.lacks opener.now list.now) O.Lines.remaining O.Lines.failures md5s.items) }
    ensures unlisted { IfErr result (UnlistedIn (O.lists opener.now list.now)
        (O.lacks opener.now list.now) O.Lines.remaining O.Lines.failures) }
    ensures refused { IfErr result IsComparingRefusal }
{
    let mut reader = opener.open_list(alloc, list)?;
    match read_list(alloc, &mut reader) {
        Ok(md5s) => Ok(md5s),
        Err(fault) => Err(list_refusal(fault)),
    }
}

/// What came of comparing, without what is noted of the file.
fn unnoted(done: Result<Notes, Refusal>) -> Result<(), Refusal>
    ensures { result ≡ unnoted done }
{
    match done {
        Ok(_) => Ok(()),
        Err(refusal) => Err(refusal),
    }
}

/// Compares all pictures of a file with these MD5s. Answers what is noted of the file.
fn compare<O: Opens>(
    alloc: Global,
    opener: &O,
    input: &str,
    progress: bool,
    md5s: &[u128],
) -> Result<Notes, Refusal>
    ensures compares { OfFile (O.opens opener.now input.now) (O.misses opener.now input.now)
        O.Reader.remaining O.Reader.failures (λ first last. Compares md5s.now
        (passage O.Reader.remaining O.Reader.failures first last) result) (result ≡ unread) }
    ensures refused { IfErr result IsComparingRefusal }
{
    let mut reader = opener.open(input, progress)?;
    match check_against(alloc, Profile::Wide, &mut reader, md5s) {
        Ok(notes) => Ok(notes),
        Err(unlike) => Err(unlike_refusal(unlike)),
    }
}

/// Reads the list, and then compares all pictures of the file with it. Answers also the path of the
/// one that this is about, and how many MD5s there are.
fn read_and_compare<'a, R, O: Opens>(
    system: &BySystem<'_, R, O>,
    comparing: Comparing<'a>,
) -> (&'a str, usize, Result<Notes, Refusal>)
    ensures compares { ComparesIn (O.lists system.now.opener comparing.entry.list.now)
        (O.lacks system.now.opener comparing.entry.list.now) O.Lines.remaining O.Lines.failures
        (O.opens system.now.opener comparing.entry.input.now)
        (O.misses system.now.opener comparing.entry.input.now) O.Reader.remaining
        O.Reader.failures comparing.entry result.0.now result.1 result.2 }
    ensures refused { IfErr result.2 IsComparingRefusal }
{
    let Comparing {
        input,
        list,
        progress,
        ..
    } = comparing;
    match md5s_of(system.alloc, &system.opener, list) {
        Ok(md5s) => {
            system.met.clear();
            let done = compare(system.alloc, &system.opener, input, progress, &md5s);
            (input, md5s.len(), done)
        }
        Err(refusal) => (list, 0, Err(refusal)),
    }
}

/// Reads the list, and then compares all pictures of the file with it. It prints how many frames
/// there are, if all agree; or one line, whatever comes of it. Answers also the path of what is
/// refused. `Write` if that line cannot be printed, `OutOfMemory` if memory of it is refused.
pub fn run_against<'a, R: Print, O: Opens + Tells>(
    system: &BySystem<'_, R, O>,
    comparing: Comparing<'a>,
) -> (Paths<'a>, Result<Notes, Refusal>)
    ensures compares { TellsIn (O.lists system.now.opener comparing.entry.list.now)
        (O.lacks system.now.opener comparing.entry.list.now) O.Lines.remaining O.Lines.failures
        (O.opens system.now.opener comparing.entry.input.now)
        (O.misses system.now.opener comparing.entry.input.now) O.Reader.remaining
        O.Reader.failures (O.compared system.now.opener) comparing.entry result.1 }
    ensures refused { IfErr result.1 IsComparingRefusal }
{
    let told = comparing.told;
    let (path, frames, done) = read_and_compare(system, comparing);
    match system
        .opener
        .tell_comparison(system.alloc, path, told, frames, unnoted(done))
    {
        Ok(()) => (Paths::looked(path), noted(comparing.notes_as_faults, done)),
        Err(refusal) => (Paths::looked(path), Err(refusal)),
    }
}
