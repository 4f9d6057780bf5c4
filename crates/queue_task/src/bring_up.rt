// From a reset device to one whose queue can be made.
use bringup::{EVENT_IDX, Reset, SPOKEN, Sized, State};
use tasks::Result;

// What the device offers.
const OFFERED: u64 = SPOKEN;

const CAPACITY: u32 = 8;

pub(crate) fn bring_up(wanted: u64) -> Result<Sized> {
    Ok(bringup::bring_up(OFFERED, wanted, CAPACITY)?)
}

// Tells each state on the way, and two refusals that hand the state back.
pub(crate) fn tell_bring_up(rt: &HostRuntime, wanted: u64) -> Result<()> {
    let reset = Reset::new(OFFERED);
    println!(rt; "reset: status {}", reset.status())?;
    let known = reset.acknowledge();
    println!(rt; "known: status {}", known.status())?;
    if let Err((refusal, known)) = known.agree(EVENT_IDX) {
        println!(rt; "no version: {refusal}, still status {}", known.status())?;
    }
    let known = Reset::new(OFFERED).acknowledge();
    let agreed = known.agree(wanted).map_err(|(refusal, _)| refusal)?;
    println!(rt;
        "agreed: status {}, mode {}",
        agreed.status(),
        agreed.mode().number()
    )?;
    if let Err((refusal, agreed)) = agreed.size(3) {
        println!(rt; "capacity 3: {refusal}, still status {}", agreed.status())?;
    }
    let sized = bring_up(wanted)?;
    println!(rt;
        "sized: status {}, capacity {}",
        sized.status(),
        sized.capacity()
    )?;
    println!(rt; "made: status {}", sized.spend().status())?;
    Ok(())
}
