// A small disk over the queue.
ghost use Rattle.std.specs.Prelude.{◌≡◌, true, IfOk};
ghost use Rattle.split.specs.Making.{suits};
ghost use Rattle.tasks.specs.Steps.{FoundAgain, OnDisk};

use crate::queues::{ask, go_to_sleep, tell_positions, wake};
use crate::steps::step;
use block::{Block, Operation, sectors};
use bringup::Sized;
use carrying::Over;
use class::{Class, Request};
use queue::Queue;
use split::Split;
use tasks::{DISK_TAG, Result, odd_requests, write_and_read};

// Writes a sector and reads it back, over a queue that is made for it in the region lent; whether the same bytes are found there.
pub(crate) fn first_board(
    rt: &HostRuntime,
    region: &mut [u8],
    sized: Sized,
    sector: u64,
    board: &[u8],
    cell: &mut [u8],
    disk: &mut [u8],
) -> Result<bool>
    ensures found_again { IfOk result (λ same. suits region.old sized.mode sized.capacity ≡ true → FoundAgain cell.old disk.old sector board.now same) }
    ensures on_the_disk { IfOk result (λ _. suits region.old sized.mode sized.capacity ≡ true → OnDisk cell.old disk.old sector board.now disk.new) }
{
    let mut way = Over {
        queue: Split::make(region, sized),
    };
    write_and_read(rt, &mut way, sector, board, cell, disk)
}

// Reads what is not there while both sides sleep, and the odd requests while both are up. It is not the first task's, since it asks
// between the requests who wants to be woken.
pub(crate) fn use_disk<Q: Queue>(
    rt: &HostRuntime,
    way: &mut Over<Q>,
    cell: &mut [u8],
    disk: &mut [u8],
) -> Result<()> {
    let count = sectors(disk)?;
    println!(rt; "disk: {count} sectors")?;
    let marks = go_to_sleep(rt, &mut way.queue)?;
    ask(rt, &way.queue, marks)?;
    let past = Request::bare(Operation::Read.into(), count);
    step::<Q, Block>(rt, way, "read past the end", DISK_TAG, past, cell, disk)?;
    ask(rt, &way.queue, marks)?;
    let zeroes = Block::data(cell)? == [0; 512].as_slice();
    println!(rt; "only zeroes: {zeroes}")?;
    let marks = wake(&mut way.queue);
    odd_requests(rt, way, cell, disk)?;
    ask(rt, &way.queue, marks)?;
    tell_positions(rt, &way.queue)
}
