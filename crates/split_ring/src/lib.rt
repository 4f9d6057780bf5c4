// The split layout as bytes and numbers: a region with descriptors, the available ring, the used ring and the suppression
// words, and how far each of the four moves has come.

#![tactic(auto)]

mod cursors;
mod descriptors;
mod kept;
mod places;
mod region;
mod rings;

pub use cursors::Cursor;
pub use descriptors::{Descriptor, NEXT, WRITE};
pub use kept::Chain;
pub use places::{
    available_event_place, descriptor_place, device_area, driver_area, head_place, index_place,
    region_size, used_event_place, used_index_place, used_place,
};
pub use region::{Region, RegionView};
pub use rings::UsedElement;
