// The first task: a board is written to a small disk and read back, and progress is sent to a small console, each request
// handed over at once and each step printed.

#![tactic(auto)]

ghost use Rattle.std.specs.Prelude.{◌≡◌, IfOk};
ghost use Rattle.class.specs.Kinds.{asked};
ghost use Rattle.class.specs.Rules.{carried};
ghost use Rattle.tasks.specs.Steps.{FoundAgain, OnDisk};
ghost use Rattle.first_task.specs.Steps.{ShowsTheData};

use block::{Block, Operation, sectors};
use class::{ByHand, CELL_SIZE, Class, Request};
use tasks::{DISK_TAG, Result, odd_requests, report};

// One step, handed over at once.
fn step<C: Class>(
    rt: &HostRuntime,
    name: &str,
    tag: u16,
    request: Request<'_>,
    cell: &mut [u8],
    store: &mut [u8],
) -> Result<()>
    ensures plain_store { store.new ≡ (carried C.kind tag (asked request.entry) cell.old store.old).store }
    ensures plain_data { ShowsTheData C.kind tag (asked request.entry) cell.old store.old cell.new }
{
    tasks::step::<ByHand, C>(rt, &mut ByHand, name, tag, request, cell, store)
}

// Writes a sector and reads it back; whether the same bytes are found there.
fn write_and_read(
    rt: &HostRuntime,
    sector: u64,
    board: &[u8],
    cell: &mut [u8],
    disk: &mut [u8],
) -> Result<bool>
    ensures found_again { IfOk result (λ same. FoundAgain cell.old disk.old sector board.now same) }
    ensures on_the_disk { IfOk result (λ _. OnDisk cell.old disk.old sector board.now disk.new) }
{
    tasks::write_and_read(rt, &mut ByHand, sector, board, cell, disk)
}

// Not the other task's: between these requests nobody sleeps.
fn use_disk(rt: &HostRuntime, disk: &mut [u8]) -> Result<()> {
    let mut cell = [0xee; CELL_SIZE];
    let board = [0xb5; 512];
    let count = sectors(disk)?;
    println!(rt; "disk: {count} sectors")?;
    let same = write_and_read(rt, 2, &board, &mut cell, disk)?;
    println!(rt; "the same bytes: {same}")?;
    let past = Request::bare(Operation::Read.into(), count);
    step::<Block>(rt, "read past the end", DISK_TAG, past, &mut cell, disk)?;
    let zeroes = Block::data(&cell)? == [0; 512].as_slice();
    println!(rt; "only zeroes: {zeroes}")?;
    odd_requests(rt, &mut ByHand, &mut cell, disk)
}

fn main(rt: HostRuntime) -> Result<()> {
    let mut disk = [0; 2100];
    let mut log = [0; 48];
    let mut cell = [0xee; CELL_SIZE];
    use_disk(&rt, &mut disk)?;
    report(&rt, &mut ByHand, &mut cell, &mut log)?;
    Ok(())
}
