//! What `check` prints of a file, and what prints it.

ghost use Rattle.std.specs.Prelude.{◌≡◌, ℕ, List, Option, Result, IfErr, false};
ghost use Rattle.ffv1_orders.specs.Looked.{Printed};
ghost use Rattle.ffv1_orders.specs.Telling.{IsUntold, Untold};
ghost use Rattle.ffv1_orders.specs.Orders.{is_of_frames, telling_of};
ghost use Rattle.ffv1_orders.specs.Statuses.{IsAnyFault, IsComparingRefusal};
ghost use Rattle.ffv1_orders.specs.declared.telling.Telling.{Telling};
ghost use Rattle.ffv1_orders.specs.declared.telling.Telling.TheVariants as telling;
ghost use Rattle.ffv1_video.specs.declared.fault.Fault.{Fault};

use crate::checking::Checking;
use crate::comparing::print_answer;
use crate::input::SystemFiles;
use crate::quiet::{LastLines, tell_line};
use crate::refusal::Refusal;
use crate::verdict::{print_beginning, print_end, tell_compared, tell_object};
use ffv1_video::Fault;
use std::alloc::Global;

/// What `check` prints of a file.
#[derive(Clone, Copy, Debug, PartialEq, Eq)]
pub enum Telling {
    /// Lines of its frames.
    Frames,
    /// One line.
    Line,
    /// An object of JSON, on one line.
    Object,
}

impl Telling {
    /// As an order asks for it, which may ask for a line and for an object: that is an object.
    pub fn new(quiet: bool, json: bool) -> Telling
        ensures { result ≡ telling_of quiet json }
    {
        if json {
            return Telling::Object;
        }
        if quiet {
            Telling::Line
        } else {
            Telling::Frames
        }
    }

    /// Whether it is by lines of its frames.
    pub fn is_of_frames(self) -> bool
        ensures { result ≡ is_of_frames self }
    {
        match self {
            Telling::Frames => true,
            Telling::Line | Telling::Object => false,
        }
    }
}

/// What prints what became of files.
pub trait Tells {
    /// What a check answered was printed, or could not be: what prints it, the bytes of the path,
    /// in which way, what the check answered, and what came of printing it.
    ghost tells: { Self → List ℕ → Telling → Result (Option Fault) Fault → Printed → Type 0 };

    /// The same of a file that is compared with a list: what prints it, the bytes of the path, in
    /// which way, of how many MD5s the list is, what came of comparing, and of printing.
    ghost compared: { Self → List ℕ → Telling → ℕ → Printed → Printed → Type 0 };

    /// An object of facts was begun: what prints it, the bytes of the path, and what came of it.
    ghost begins: { Self → List ℕ → Printed → Type 0 };

    /// An object of facts was ended: what prints it, what came of the facts, and of printing.
    ghost ends: { Self → Printed → Printed → Type 0 };

    /// Prints one line of a file that was checked, or an object of JSON on one. `answer` is what
    /// the check answered, and `lines` has what it wrote, with places.
    fn tell(
        &self,
        alloc: Global,
        input: &str,
        lines: &LastLines<'_>,
        checking: Checking,
        answer: Result<Option<Fault>, Fault>,
    ) -> Result<(), Refusal>
        ensures tells { tells self.now input.now checking.told answer result }
        ensures told { is_of_frames checking.told ≡ false →
            IfErr result (Untold checking.told) }
        ensures untold { IfErr result IsUntold }
        ensures fault { IfErr result IsAnyFault };

    /// Prints what came of comparing a file with a list of so many MD5s.
    fn tell_comparison(
        &self,
        alloc: Global,
        path: &str,
        told: Telling,
        frames: usize,
        done: Result<(), Refusal>,
    ) -> Result<(), Refusal>
        ensures tells { compared self.now path.now told frames done result }
        ensures untold { IfErr result IsUntold }
        ensures refused { IfErr result IsComparingRefusal };

    /// Prints the beginning of an object of facts, the path.
    fn begin(&self, alloc: Global, path: &str) -> Result<(), Refusal>
        ensures begins { begins self.now path.now result }
        ensures untold { IfErr result (Untold telling.Object) }
        ensures fault { IfErr result IsAnyFault };

    /// Prints the end of an object of facts, what came of them.
    fn end(&self, alloc: Global, done: Result<(), Refusal>) -> Result<(), Refusal>
        ensures ends { ends self.now done result }
        ensures untold { IfErr result (Untold telling.Object) }
        ensures fault { IfErr result IsAnyFault };
}

impl<H: Print> Tells for SystemFiles<'_, H> {
    ghost tells = { λ _ _ _ _ _. Unit {0} };

    ghost compared = { λ _ _ _ _ _ _. Unit {0} };

    ghost begins = { λ _ _ _. Unit {0} };

    ghost ends = { λ _ _ _. Unit {0} };

    fn tell(
        &self,
        alloc: Global,
        input: &str,
        lines: &LastLines<'_>,
        checking: Checking,
        answer: Result<Option<Fault>, Fault>,
    ) -> Result<(), Refusal> {
        let all = checking.all;
        match checking.told {
            Telling::Object => tell_object(self.rt, alloc, input, lines, all, answer),
            Telling::Line | Telling::Frames => {
                let printed = tell_line(self.rt, input, lines, all, answer);
                self.met.printed(printed)
            }
        }
    }

    fn tell_comparison(
        &self,
        alloc: Global,
        path: &str,
        told: Telling,
        frames: usize,
        done: Result<(), Refusal>,
    ) -> Result<(), Refusal> {
        let (rt, met) = (self.rt, self.met);
        match told {
            Telling::Object => tell_compared(rt, alloc, met, path, frames, done),
            Telling::Line => met.printed(print_answer(rt, path, true, frames, done)),
            Telling::Frames => met.printed(print_answer(rt, path, false, frames, done)),
        }
    }

    fn begin(&self, alloc: Global, path: &str) -> Result<(), Refusal> {
        print_beginning(self.rt, alloc, self.met, path)
    }

    fn end(&self, alloc: Global, done: Result<(), Refusal>) -> Result<(), Refusal> {
        print_end(self.rt, alloc, self.met, done)
    }
}
