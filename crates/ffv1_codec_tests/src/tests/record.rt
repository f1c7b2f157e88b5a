//! Configuration records, by values from outside the program: records of an independent model and
//! of FFmpeg, and records made by hand.

mod checks;
mod depths;
mod edges;
mod held;
mod made;
mod read;
mod scarce;
mod stored;
mod symbols;
