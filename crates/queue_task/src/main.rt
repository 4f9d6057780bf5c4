// The first task, once with flags and once with events: a driver is brought up and makes a split queue, a board is written to a
// small disk and read back, and progress is sent to a small console, each request carried over the queue and each step printed.

#![tactic(auto)]

mod bring_up;
mod disk;
mod in_flight;
mod queues;
mod steps;
mod worked;

use crate::bring_up::{bring_up, tell_bring_up};
use crate::disk::{first_board, use_disk};
use crate::in_flight::three_in_flight;
use crate::queues::{ask, go_to_sleep, tell_words};
use crate::worked::tell_worked_cases;
use bringup::{EVENT_IDX, VERSION_1};
use carrying::Over;
use class::CELL_SIZE;
use split::Split;
use tasks::{Result, report};

// The bytes of a split region of capacity 8.
const REGION_SIZE: usize = 238;

fn run(rt: &HostRuntime, wanted: u64) -> Result<()> {
    let mut region = [0xee; REGION_SIZE];
    let mut cell = [0xee; CELL_SIZE];
    let mut disk = [0; 2100];
    let mut log = [0; 48];
    let board = [0xb5; 512];
    tell_bring_up(rt, wanted)?;
    let same = first_board(
        rt,
        &mut region,
        bring_up(wanted)?,
        2,
        &board,
        &mut cell,
        &mut disk,
    )?;
    println!(rt; "the same bytes: {same}")?;
    let mut way = Over {
        queue: Split::make(&mut region, bring_up(wanted)?),
    };
    use_disk(rt, &mut way, &mut cell, &mut disk)?;
    tell_words(rt, way.queue.region())?;
    three_in_flight(rt, &mut way.queue)?;
    let marks = go_to_sleep(rt, &mut way.queue)?;
    report(rt, &mut way, &mut cell, &mut log)?;
    ask(rt, &way.queue, marks)?;
    tell_words(rt, way.queue.region())
}

fn main(rt: HostRuntime) -> Result<()> {
    tell_worked_cases(&rt)?;
    println!(rt; "\nwith flags")?;
    run(&rt, VERSION_1)?;
    println!(rt; "\nwith events")?;
    run(&rt, VERSION_1 | EVENT_IDX)
}
