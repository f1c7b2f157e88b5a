//! Pictures as text: as other programs write them, and worked values.

mod depths;
mod failing;
mod headers;
mod image_depths;
mod images;
mod pictures;
mod scarce;
mod sitings;
