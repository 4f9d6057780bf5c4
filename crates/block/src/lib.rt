// The block class: reads, writes and flushes of 512-byte sectors.

#![tactic(auto)]

mod codes;
mod disks;
mod interface;
mod laying;
mod serving;

pub use codes::{Operation, SECTOR_SIZE, Status};
pub use disks::sectors;
pub use interface::Block;
