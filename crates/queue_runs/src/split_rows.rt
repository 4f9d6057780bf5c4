// Split regions byte by byte, at places worked out by hand.
use crate::bring_up::{SPLIT_EVENTS, split_queue};
use entries::{Entry, Segment};
use queue::{Queue, Side};
use std::test::Fail;
use words::get;

// A chain of three: header to read, data and status to write.
fn chain(tag: u16) -> Entry {
    let header = Segment {
        start: 544,
        length: 16,
        writable: false,
    };
    let body = Segment {
        start: 560,
        length: 512,
        writable: true,
    };
    let status = Segment {
        start: 1072,
        length: 1,
        writable: true,
    };
    Entry {
        tag,
        count: 3,
        segments: [header, body, status],
    }
}

// capacity 4: the driver area is at 80, the device area at 96
const HALVES: [(usize, u16); 22] = [
    // header: mode, capacity
    (0, 1),
    (2, 4),
    // the first chain, in descriptors 0, 1 and 2: flags and next
    (28, 1),
    (30, 1),
    (44, 3),
    (46, 2),
    (60, 2),
    (62, 0),
    // the second, one segment in descriptor 3
    (76, 0),
    (78, 0),
    // driver area: flags, index, heads, used event
    (80, 0),
    (82, 2),
    (84, 0),
    (86, 3),
    (88, 0),
    (92, 1),
    // the gap
    (94, 0),
    // device area: flags, index, available event
    (96, 0),
    (98, 1),
    (132, 1),
    // the first used element: its head and the written length
    (100, 0),
    (104, 513),
];

#[test]
fn words_of_a_split_region(rt: HostRuntime) -> Result<(), Fail> {
    let mut region = [0xee; 134];
    let mut queue = split_queue(&mut region, SPLIT_EVENTS, 4)?;
    let single = Entry {
        tag: 7,
        count: 1,
        segments: [
            Segment {
                start: 3824,
                length: 5,
                writable: false,
            },
            Segment::UNUSED,
            Segment::UNUSED,
        ],
    };
    assert_eq!(rt; queue.publish(chain(1)), Ok(()));
    assert_eq!(rt; queue.publish(single), Ok(()));
    assert!(rt; queue.take().is_some());
    queue.arm(Side::Device);
    assert_eq!(rt; queue.finish(513), Ok(()));
    assert!(rt; queue.collect().is_some());
    queue.arm(Side::Driver);
    for (at, half) in HALVES {
        assert_eq!(rt; get::<u16>(queue.region(), at), half);
    }
    assert_eq!(rt; get::<u32>(queue.region(), 4), 16);
    assert_eq!(rt; get::<u32>(queue.region(), 8), 80);
    assert_eq!(rt; get::<u32>(queue.region(), 12), 96);
    assert_eq!(rt; get::<u64>(queue.region(), 16), 544);
    assert_eq!(rt; get::<u32>(queue.region(), 24), 16);
    assert_eq!(rt; get::<u64>(queue.region(), 64), 3824);
    Ok(())
}
