//! Files of AVI, read and written.

mod closed;
mod damaged;
mod example;
mod failing;
mod files;
mod large;
mod open_sizes;
mod rates;
mod riffs;
mod scarce;
