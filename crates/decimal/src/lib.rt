// Readings as they are written in the field book: decimals, the doubles nearest to them, lines of two, and a cursor that hands out their samples.
#![tactic(auto)]

mod cursor;
mod digits;
mod errors;
mod lines;
mod powers;
mod readings;

pub use cursor::{Cursor, next_sample};
pub use errors::ReadingError;
pub use lines::{check, count};
pub use readings::read;
