// A board on a disk.
ghost use Rattle.std.specs.Prelude.{◌≡◌, IfOk};
ghost use Rattle.tasks.specs.Steps.{Free, FoundAgain, OnDisk};

use crate::steps::step;
use crate::stop::Result;
use block::{Block, Operation};
use class::{Class, Request, Way};

pub const DISK_TAG: u16 = 0;

// Writes a sector and reads it back; whether the same bytes are found there.
pub fn write_and_read<W: Way>(
    rt: &HostRuntime,
    way: &mut W,
    sector: u64,
    board: &[u8],
    cell: &mut [u8],
    disk: &mut [u8],
) -> Result<bool>
    ensures found_again { IfOk result (λ same. W.sound way.old → Free (W.too_small way.old) (W.in_use way.old) → FoundAgain cell.old disk.old sector board.now same) }
    ensures on_the_disk { IfOk result (λ _. W.sound way.old → Free (W.too_small way.old) (W.in_use way.old) → OnDisk cell.old disk.old sector board.now disk.new) }
{
    let write = Request {
        code: Operation::Write.into(),
        place: sector,
        payload: board,
    };
    let read = Request::bare(Operation::Read.into(), sector);
    step::<W, Block>(rt, way, "write the board", DISK_TAG, write, cell, disk)?;
    step::<W, Block>(rt, way, "read it back", DISK_TAG, read, cell, disk)?;
    Ok(Block::data(cell)? == board)
}

// Asks for what a disk has no sector for: a flush, a type that nobody knows, and a write of no bytes, which is refused.
pub fn odd_requests<W: Way>(
    rt: &HostRuntime,
    way: &mut W,
    cell: &mut [u8],
    disk: &mut [u8],
) -> Result<()>
    ensures disk_stays { W.sound way.old → disk.new ≡ disk.old }
{
    let flush = Request::bare(Operation::Flush.into(), 0);
    let unknown = Request::bare(9, 0);
    let empty = Request::bare(Operation::Write.into(), 2);
    step::<W, Block>(rt, way, "flush", DISK_TAG, flush, cell, disk)?;
    step::<W, Block>(rt, way, "type 9", DISK_TAG, unknown, cell, disk)?;
    step::<W, Block>(rt, way, "write no bytes", DISK_TAG, empty, cell, disk)
}
