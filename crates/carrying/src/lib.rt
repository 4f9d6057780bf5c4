// One request of any class, over any queue: from the driver's hand to the device and back to the driver.

#![tactic(auto)]

mod carrying;
mod checks;
mod over;
mod stages;

pub use carrying::carry;
pub use over::Over;
