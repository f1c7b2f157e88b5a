// SPDX-License-Identifier: MIT OR Apache-2.0
//! What the orders of the program `ffv1` are done by: their files, what is said of them, and their
//! exit statuses.
//!
//! `command` does what a line asks for, and `run_order` what an order does, by a `Doer`, which has
//! a call for each part: `Making`, `Comparing` and `Looking` say what that part is given. `Opens`
//! opens and makes files, `Tells` prints what became of one, and `SystemFiles` does so by the calls
//! of the system. `Met` keeps what is met in files, by the readers and writers in `Noted`. A
//! `Refusal` is why an order is not done; `noted` says what comes of the notes of a file.
#![tactic(auto)]

mod advice;
mod arguments;
mod checking;
mod comparing;
mod hashing;
mod informing;
mod input;
mod lines;
mod making;
mod met;
mod notes;
mod orders;
mod output;
mod printers;
mod progress;
mod quiet;
mod refusal;
mod remarks;
mod several;
mod statuses;
mod telling;
mod told;
mod unpacking;
mod verdict;

pub use arguments::{looks, other_words};
pub use checking::Checking;
pub use comparing::Comparing;
pub use hashing::Hashing;
pub use informing::Informing;
pub use input::{Again, Opens, SystemFiles};
pub use lines::command;
pub use making::Making;
pub use met::{Met, Noted};
pub use notes::noted;
pub use orders::{Doer, Looking, run_order};
pub use printers::{Beside, ErrorPrinter, beside};
pub use quiet::LastLines;
pub use refusal::Refusal;
pub use remarks::{Remarks, tell_remarks};
pub use telling::{Telling, Tells};
pub use told::Paths;
pub use unpacking::Unpacking;
