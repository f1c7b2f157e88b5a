//! Looks at one file or at several, one after the other.

ghost use Rattle.std.specs.Prelude.{◌≡◌, ◌≢◌, ◌↔◌, ◌≤◌, ℕ, Bool, List, [], ◌∷◌, Err, IfErr, IfOk};
ghost use Rattle.std.specs.Prelude.{IsOk, IsTrue, OnErr, length};
ghost use Rattle.ffv1_orders.specs.Looked.{IsTold, LooksAtEach, LooksNamed, Outcome};
ghost use Rattle.ffv1_orders.specs.Looked.{StopsAt, paths_of, status_of_each};
ghost use Rattle.ffv1_orders.specs.Statuses.{IsLookingRefusal, status_of};
ghost use Rattle.ffv1_orders.specs.declared.refusal.Refusal.{Refusal};
ghost use Rattle.ffv1_orders.specs.declared.refusal.Refusal.TheVariants as refusal;
ghost use Rattle.ffv1_video.specs.declared.fault.Fault.TheVariants as fault;

use crate::met::Met;
use crate::refusal::Refusal;
use crate::statuses::{tell, tell_outcome};
use crate::told::Paths;
use ffv1_files::Notes;
use ffv1_video::Fault;
use std::io;

/// What looks at files, and names them.
pub trait Looks {
    /// A line of a path: the looker before, the bytes of the path, whether the line was printed,
    /// and the looker after.
    ghost names: { Self → List ℕ → Bool → Self → Type 0 };

    /// A look: the looker before, the bytes of the path, what came of it, and the looker after.
    ghost looks: { Self → List ℕ → Outcome → Self → Type 0 };

    /// Prints a line of a path, unless none is asked for. Answers false if it could not be printed.
    fn name(&mut self, path: &str) -> bool
        ensures { names self.old path.now result self.new };

    /// Looks at the file of a path.
    fn look(&mut self, path: &str) -> Result<Notes, Refusal>
        ensures look { looks self.old path.now result self.new }
        ensures fault { IfErr result IsLookingRefusal };
}

/// Looks at a file after a line of its path. The fault `Write` if that line cannot be printed,
/// and then the file is not looked at.
fn look_named<L: Looks>(looker: &mut L, path: &str) -> Result<Notes, Refusal>
    ensures look { LooksNamed L.names L.looks looker.old path.now result looker.new }
    ensures fault { IfErr result IsLookingRefusal }
{
    if looker.name(path) {
        return looker.look(path);
    }
    Err(Refusal::Fault(Fault::Write))
}

/// The exit status of several files after one more: 1 if any was refused.
fn status_after(status: u8, done: Result<Notes, Refusal>) -> u8
    ensures ok { IsOk done → result ≡ status }
    ensures refused { (r : Refusal) → done ≡ Err r → result ≡ 1 }
{
    match done {
        Ok(_) => status,
        Err(_) => 1,
    }
}

/// Whether no further file is looked at: a line could not be printed.
fn is_unprinted(done: Result<Notes, Refusal>) -> bool
    ensures { IsTrue result ↔ (done ≡ Err (refusal.Fault fault.Write)) }
{
    matches!(done, Err(Refusal::Fault(Fault::Write)))
}

/// Looks at each of several files, in order and after a line of its path, until a line cannot be
/// printed; notes and a refusal are told on standard error, with the path. Answers the exit status:
/// 1 if any was refused, and else 0. If standard error cannot be written, no further file is
/// looked at.
fn look_each<L: Looks>(
    rt: &impl Eprint,
    met: &Met,
    looker: &mut L,
    paths: &[&str],
) -> io::Result<u8>
    ensures small { IfOk result (λ status. status ≤ 1) }
    ensures ok { IfOk result (λ status. (outcomes : List Outcome)
        × LooksAtEach (LooksNamed L.names L.looks) looker.old (paths_of paths.entry.now) outcomes
        looker.new × (status ≡ status_of_each outcomes)) }
    ensures err { OnErr result ((earlier : List Outcome) × (told : Outcome) × IsTold told
        × StopsAt (LooksNamed L.names L.looks) looker.old (paths_of paths.entry.now) earlier told
        looker.new) }
{
    let mut status = 0;
    for path in paths {
        let done = look_named(looker, path);
        tell_outcome(rt, met, Some(path), Paths::looked(path), done)?;
        status = status_after(status, done);
        if is_unprinted(done) {
            break;
        }
    }
    Ok(status)
}

/// Looks at one file, with no line of its path, or at each of several. Answers the exit status.
pub fn look_all<L: Looks>(
    rt: &impl Eprint,
    met: &Met,
    looker: &mut L,
    paths: &[&str],
) -> io::Result<u8>
    ensures small { IfOk result (λ status. status ≤ 1) }
    ensures one { (path : List ℕ) → paths_of paths.entry.now ≡ path ∷ [] →
        (outcome : Outcome) × L.looks looker.old path outcome looker.new
        × IfOk result (λ status. status ≡ status_of outcome) }
    ensures ok { length paths.now ≢ 1 → IfOk result (λ status. (outcomes : List Outcome)
        × LooksAtEach (LooksNamed L.names L.looks) looker.old (paths_of paths.entry.now) outcomes
        looker.new × (status ≡ status_of_each outcomes)) }
    ensures err { length paths.now ≢ 1 → OnErr result ((earlier : List Outcome)
        × (told : Outcome) × IsTold told × StopsAt (LooksNamed L.names L.looks) looker.old
        (paths_of paths.entry.now) earlier told looker.new) }
{
    if paths.len() == 1 {
        let done = looker.look(paths[0]);
        return tell(rt, met, Paths::looked(paths[0]), done);
    }
    look_each(rt, met, looker, paths)
}
