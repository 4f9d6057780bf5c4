// The steps of the first task, whatever way its requests go: each is carried through its class and printed.

#![tactic(auto)]

mod boards;
mod progress;
mod steps;
mod stop;

pub use boards::{DISK_TAG, odd_requests, write_and_read};
pub use progress::report;
pub use steps::step;
pub use stop::{Result, Stop};
