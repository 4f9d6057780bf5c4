// The console class: text appended to a store that counts what it keeps and what it loses.

#![tactic(auto)]

mod interface;
mod lines;
mod stores;

pub use interface::Console;
pub use stores::{Counts, tally, text};
