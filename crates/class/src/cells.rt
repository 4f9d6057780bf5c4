// A cell is the stretch of memory that one tag owns: header at 0, data at 16, status at 528, 544 bytes in all.
ghost use Rattle.std.specs.Prelude.{◌≡◌};
ghost use Rattle.class.specs.Cells.{address};

pub const CELL_SIZE: usize = 544;

pub const HEADER_SIZE: usize = 16;

pub const DATA_AT: usize = 16;

pub const DATA_SIZE: usize = 512;

pub const STATUS_AT: usize = 528;

// Where a tag's cell starts among all cells: the address that segments carry.
pub fn cell_address(tag: u16) -> u64
    ensures by_the_rule { result ≡ address tag }
{
    CELL_SIZE as u64 * u64::from(tag)
}
