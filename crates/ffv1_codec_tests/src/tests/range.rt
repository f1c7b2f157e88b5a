//! The range coder, by values from outside the program: worked by hand and by another
//! implementation over numbers without a limit.

mod coder;
mod definition;
pub(crate) mod made;
mod megabytes;
mod parking;
mod scarce;
mod symbols;
mod tables;
mod tallied;
mod transitions;
