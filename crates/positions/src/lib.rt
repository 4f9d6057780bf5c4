// Positions that count up and wrap at a modulus, and the one question asked of them: does a stretch hold an event?

#![tactic(auto)]

mod stretch;

pub use stretch::Stretch;
