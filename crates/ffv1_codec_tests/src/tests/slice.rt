//! Slices, by values from outside the program: those of an independent model.

mod cuttings;
mod footers;
mod grids;
mod heads;
mod made;
mod slices;
