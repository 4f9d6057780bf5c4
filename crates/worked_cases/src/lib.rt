// Worked cases: a table of questions whose answers are known, each proved to be what the rule says.

#![tactic(auto)]

mod table;

pub use table::{Case, worked_cases};
