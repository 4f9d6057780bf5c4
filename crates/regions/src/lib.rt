// A region of memory that a queue is laid in: its header, and how it is made.

#![tactic(auto)]

mod making;

pub use making::{HEADER_SIZE, Map, prepare};
