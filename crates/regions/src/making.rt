// A region: a header of le16 mode, le16 capacity and three le32 offsets, then the areas that the offsets tell.
ghost use Rattle.std.specs.Prelude.{◌≡◌, ◌-◌, ◌≤◌, replicate};
ghost use Rattle.words.specs.Bytes.{overwrite};
ghost use Rattle.regions.specs.Making.{header_size, numbered, room, fits, prepared, Drawn};

use words::{put, zero};

pub const HEADER_SIZE: usize = 16;

const MODE_PLACE: usize = 0;

const CAPACITY_PLACE: usize = 2;

const DESCRIPTOR_PLACE: usize = 4;

const DRIVER_PLACE: usize = 8;

const DEVICE_PLACE: usize = 12;

// Where the areas of a region lie. The descriptor area starts right after the header, and `total` is where the last area ends.
#[derive(Clone, Copy, PartialEq, Eq, Debug)]
pub struct Map {
    // as the header has it: a region knows no bring-up
    pub mode: u16,
    pub capacity: u16,
    pub driver_at: u32,
    pub device_at: u32,
    pub total: u32,
}

fn has_room(map: Map, len: usize) -> bool
    ensures exactly_when_long_enough { result ≡ room map len }
{
    let total = map.total as usize;
    HEADER_SIZE <= total && total <= len
}

// The areas, and the gaps between them.
fn zero_areas(region: &mut [u8], map: Map)
    requires { header_size ≤ map.total }
    ensures later_bytes { region.new ≡ overwrite header_size (replicate (map.total - header_size) 0) region.old }
{
    zero(region, HEADER_SIZE, map.total as usize - HEADER_SIZE);
}

fn write_header(region: &mut [u8], map: Map)
    ensures later_bytes { region.new ≡ numbered map region.old }
{
    put(region, MODE_PLACE, map.mode);
    put(region, CAPACITY_PLACE, map.capacity);
    put(region, DESCRIPTOR_PLACE, HEADER_SIZE as u32);
    put(region, DRIVER_PLACE, map.driver_at);
    put(region, DEVICE_PLACE, map.device_at);
}

// Makes a region that is long enough; of another no byte is changed. There is one reason to fail, so whether it was made is a
// `bool`: an error with nothing to tell would be no plainer.
#[tactic(auto, using(crate::proofs::Made::drawn), unfolding(crate::specs::Making::headed, crate::specs::Making::zeroed))]
pub fn prepare(region: &mut [u8], map: Map) -> bool
    ensures answer { result ≡ fits map region.old }
    ensures later_bytes { region.new ≡ prepared map region.old }
    ensures as_drawn { Drawn map region.old region.new }
{
    if has_room(map, region.len()) {
        zero_areas(region, map);
        write_header(region, map);
        true
    } else {
        false
    }
}
