// Entries: what a driver hands to a device, as a tag and a chain of segments; and the numbers by which calls refuse.

#![tactic(auto)]

mod legality;
mod refusals;
mod shapes;
mod typed;

pub use refusals::Refusal;
pub use shapes::{Entry, LAST_TAG, Segment};
