// The queue interface: what a queue means to both sides, whatever its layout, and what follows of every queue.

#![tactic(auto)]

mod calls;
mod interface;
mod values;
mod watching;

pub use calls::{Call, Outcome, perform};
pub use interface::Queue;
pub use values::{Finished, Position, Side, Stage};
pub use watching::arm_and_look;
