// A queue brought up from reset, and the bring-ups that are refused.
use bringup::{EVENT_IDX, RING_PACKED, VERSION_1, bring_up};
use entries::Refusal;
use split::Split;

// What is offered here: all that is known, and one bit that is not.
const OFFERED: u64 = VERSION_1 | EVENT_IDX | RING_PACKED | 1;

// What is wanted for each mode, from 0 to 3.
pub(crate) const SPLIT: u64 = VERSION_1;

pub(crate) const SPLIT_EVENTS: u64 = VERSION_1 | EVENT_IDX;

pub(crate) const PACKED: u64 = VERSION_1 | RING_PACKED;

pub(crate) const PACKED_EVENTS: u64 = VERSION_1 | RING_PACKED | EVENT_IDX;

pub(crate) fn split_queue<'a>(
    region: &'a mut [u8],
    wanted: u64,
    capacity: u32,
) -> Result<Split<'a>, Refusal> {
    Ok(Split::make(region, bring_up(OFFERED, wanted, capacity)?))
}

// offered, wanted, capacity, and the number of the refusal, if any: as the documents have it, so that the numbers are tested too
const ROWS: [(u64, u64, u32, Option<u8>); 22] = [
    (OFFERED, VERSION_1, 4, None),
    (OFFERED, VERSION_1, 1024, None),
    (OFFERED, VERSION_1 | EVENT_IDX, 64, None),
    (OFFERED, VERSION_1, 0, Some(2)),
    (OFFERED, VERSION_1, 2, Some(2)),
    (OFFERED, VERSION_1, 3, Some(2)),
    (OFFERED, VERSION_1, 5, Some(2)),
    (OFFERED, VERSION_1, 1023, Some(2)),
    (OFFERED, VERSION_1, 2048, Some(2)),
    (OFFERED, VERSION_1, 65_540, Some(2)),
    (OFFERED, VERSION_1, 4_294_967_295, Some(2)),
    (OFFERED, VERSION_1 | RING_PACKED, 3, None),
    (OFFERED, VERSION_1 | RING_PACKED, 1023, None),
    (OFFERED, VERSION_1 | RING_PACKED, 2, Some(2)),
    (OFFERED, VERSION_1 | RING_PACKED, 1025, Some(2)),
    (OFFERED, 0, 4, Some(1)),
    (OFFERED, EVENT_IDX, 4, Some(1)),
    (OFFERED, VERSION_1 | 1, 4, Some(1)),
    (OFFERED, 0, 3, Some(1)),
    (VERSION_1, VERSION_1 | EVENT_IDX, 4, Some(1)),
    (0, VERSION_1, 4, Some(1)),
    (VERSION_1 | EVENT_IDX, VERSION_1 | RING_PACKED, 4, Some(1)),
];

#[test]
fn bring_up_by_the_table(rt: HostRuntime) {
    for (offered, wanted, capacity, number) in ROWS {
        let refusal = bring_up(offered, wanted, capacity).err();
        assert_eq!(rt; refusal.map(Refusal::number), number);
    }
}
