//! The rows of a cell: the words of a line, the rows above a row, and the neighbours of a sample.

pub mod above;
pub(crate) mod neighbours;
pub mod rows;
pub mod word;
