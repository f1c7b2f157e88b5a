//! Matroska: what Tracks say, and files that are read and written.

mod closed;
mod colours;
mod commands;
mod damaged;
mod late;
mod packing;
mod rates;
mod reading;
mod reading_bytes;
mod reading_refused;
mod voids;
mod written;
mod written_example;
