// The class interface: what a class of request means, how a request lies in a cell, and one function that carries a
// request of any class through.

#![tactic(auto)]

mod carrying;
mod cells;
mod checks;
mod interface;
mod requests;
mod ways;

pub use carrying::carry;
pub use cells::{CELL_SIZE, DATA_AT, DATA_SIZE, HEADER_SIZE, STATUS_AT, cell_address};
pub use checks::{check_lay, check_read, check_room, check_serve, check_store, check_tag};
pub use interface::Class;
pub use requests::{Reply, Request};
pub use ways::{ByHand, Way};
