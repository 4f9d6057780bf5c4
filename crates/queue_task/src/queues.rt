// What a queue can be asked as it goes: positions, wake-ups, and the words of its region.
use queue::{Position, Queue, Side, arm_and_look};
use split_ring::{RegionView, available_event_place, device_area, driver_area, used_event_place};
use tasks::Result;
use words::get;

// How far each side had come when the other went to sleep.
#[derive(Clone, Copy)]
pub(crate) struct Marks {
    published: u32,
    finished: u32,
}

pub(crate) fn tell_positions<Q: Queue>(rt: &HostRuntime, queue: &Q) -> Result<()> {
    let published = queue.position(Position::Published);
    let taken = queue.position(Position::Taken);
    let finished = queue.position(Position::Finished);
    let collected = queue.position(Position::Collected);
    println!(rt;
        "positions: published {published}, taken {taken}, finished {finished}, collected {collected}"
    )?;
    Ok(())
}

fn marks_of<Q: Queue>(queue: &Q) -> Marks {
    Marks {
        published: queue.position(Position::Published),
        finished: queue.position(Position::Finished),
    }
}

// Both sides arm, and look once more before they sleep.
pub(crate) fn go_to_sleep<Q: Queue>(rt: &HostRuntime, queue: &mut Q) -> Result<Marks> {
    let device = arm_and_look(queue, Side::Device);
    let driver = arm_and_look(queue, Side::Driver);
    println!(rt; "armed: work for the device {device}, for the driver {driver}")?;
    Ok(marks_of(queue))
}

// Both sides are up and ask for no wake-ups.
pub(crate) fn wake<Q: Queue>(queue: &mut Q) -> Marks {
    queue.hush(Side::Device);
    queue.hush(Side::Driver);
    marks_of(queue)
}

pub(crate) fn ask<Q: Queue>(rt: &HostRuntime, queue: &Q, marks: Marks) -> Result<()> {
    let device = queue.wants_wake_up(Side::Device, marks.published)?;
    let driver = queue.wants_wake_up(Side::Driver, marks.finished)?;
    println!(rt; "wake the device {device}, the driver {driver}")?;
    Ok(())
}

// The words of a split region, whose header says where they lie.
pub(crate) fn tell_words(rt: &HostRuntime, bytes: &[u8]) -> Result<()> {
    let mode = get::<u16>(bytes, 0);
    let capacity = get::<u16>(bytes, 2);
    println!(rt; "region: mode {mode}, capacity {capacity}")?;
    let region = RegionView { bytes, capacity };
    println!(rt;
        "driver area: flags {}, index {}, used event {}",
        region.word(driver_area(capacity)),
        region.available_index(),
        region.word(used_event_place(capacity))
    )?;
    println!(rt;
        "device area: flags {}, index {}, available event {}",
        region.word(device_area(capacity)),
        region.used_index(),
        region.word(available_event_place(capacity))
    )?;
    Ok(())
}
