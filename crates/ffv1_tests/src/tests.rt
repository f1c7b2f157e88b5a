//! Tests of commands and Matroska, by what each crate makes public, and of all together.

mod checks;
mod faults;
mod infos;
mod judged;
mod lists;
mod matroska;
mod orders;
mod packs;
mod profiles;
mod ranges;
mod refusals;
mod salvages;
mod shows;
mod strangers;
mod sums;
mod trials;
mod turns;
mod unpacks;
