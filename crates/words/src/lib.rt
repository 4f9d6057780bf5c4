// Parts of a byte slice and the little-endian numbers in them: what every layout above is read and written by.

#![tactic(auto)]

mod numbers;
mod parts;

pub use numbers::{Word, get, put};
pub use parts::{overwrite, part, zero};
