// The split queue: the queue interface over a region that both sides read, with a descriptor table, an available ring and a
// used ring.

#![tactic(auto)]

mod chains;
mod cursors;
mod interface;
mod lent;
mod making;
mod moves;
mod state;
mod suppression;

pub use state::Split;
