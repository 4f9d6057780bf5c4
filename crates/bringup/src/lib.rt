// Bring-up of a driver: from a reset device to one that is ready for its queue, one state at a time.

#![tactic(auto)]

mod capacities;
mod features;
mod modes;
mod states;
mod statuses;
mod steps;

pub use capacities::{LARGEST_CAPACITY, is_packed_size, is_split_size};
pub use features::{EVENT_IDX, RING_PACKED, SPOKEN, VERSION_1};
pub use modes::{Layout, Mode};
pub use states::{Agreed, DriverOk, Known, Reset, Sized};
pub use statuses::State;
pub use steps::bring_up;
