// Every refusal of a queue's calls, and that it leaves the region as it was.
use crate::bring_up::{PACKED, PACKED_EVENTS, SPLIT, SPLIT_EVENTS, split_queue};
use crate::rounds::entry;
use entries::{Entry, Refusal, Segment};
use queue::{Queue, Side};
use std::process::Abort;
use std::test::Fail;

// The number of the refusal, if it is one: the tables have the documents' numbers, and so test them too.
fn number<T: Drop>(answer: Result<T, Refusal>) -> Option<u8> {
    answer.err().map(Refusal::number)
}

const READ: Segment = Segment {
    start: 1,
    length: 2,
    writable: false,
};

const WRITE: Segment = Segment {
    start: 3,
    length: 4,
    writable: true,
};

const NONE: Segment = Segment::UNUSED;

// A legal entry, under the last tag.
const LEGAL: Entry = Entry {
    tag: 15,
    count: 2,
    segments: [READ, WRITE, NONE],
};

const TAG_WITHOUT_CELL: Entry = Entry { tag: 16, ..LEGAL };

// Entries with one thing wrong with each.
const WRONG: [Entry; 6] = [
    TAG_WITHOUT_CELL,
    // no segments
    Entry {
        tag: 0,
        count: 0,
        segments: [NONE, NONE, NONE],
    },
    // more segments than there are places
    Entry {
        tag: 0,
        count: 4,
        segments: [READ, READ, WRITE],
    },
    // one to read after one to write
    Entry {
        tag: 0,
        count: 2,
        segments: [WRITE, READ, NONE],
    },
    // a segment counted that is none
    Entry {
        tag: 0,
        count: 2,
        segments: [READ, NONE, NONE],
    },
    // a segment that is not counted
    Entry {
        tag: 0,
        count: 1,
        segments: [READ, WRITE, NONE],
    },
];

#[test]
fn split_refusals(rt: HostRuntime) -> Result<(), Fail> {
    for wanted in [SPLIT, SPLIT_EVENTS] {
        let mut region = [0xee; 140];
        let mut queue = split_queue(&mut region, wanted, 4)?;
        assert_eq!(rt; number(queue.finish(9)), Some(23));
        for odd in WRONG {
            assert_eq!(rt; number(queue.publish(odd)), Some(8));
        }
        assert_eq!(rt; number(queue.publish(entry(2))), None);
        assert_eq!(rt; number(queue.publish(LEGAL)), Some(22));
        assert_eq!(rt; number(queue.publish(TAG_WITHOUT_CELL)), Some(8));
        assert_eq!(rt; number(queue.publish(entry(0))), None);
        assert_eq!(rt; number(queue.publish(entry(0))), Some(22));
        assert_eq!(rt; number(queue.finish(9)), Some(23));
        assert_eq!(rt; number(queue.wants_wake_up(Side::Device, 65_535)), None);
        assert_eq!(rt; number(queue.wants_wake_up(Side::Device, 65_536)), Some(10));
        assert_eq!(rt;
            number(queue.wants_wake_up(Side::Driver, 4_294_967_295)),
            Some(10)
        );
        // bytes behind the region stay
        assert_eq!(rt; words::get::<u32>(queue.region(), 134), 0xeeee_eeee);
    }
    Ok(())
}

// What a queue of capacity 0 says and leaves.
fn does_nothing<Q: Queue>(rt: &impl Abort, queue: &mut Q) {
    assert_eq!(rt; (queue.capacity(), queue.modulus()), (0, 1));
    assert_eq!(rt; number(queue.publish(LEGAL)), Some(22));
    assert_eq!(rt; number(queue.publish(TAG_WITHOUT_CELL)), Some(8));
    assert!(rt; queue.take().is_none());
    assert_eq!(rt; number(queue.finish(0)), Some(23));
    assert!(rt; queue.collect().is_none());
    queue.arm(Side::Driver);
    queue.hush(Side::Device);
    assert_eq!(rt; queue.wants_wake_up(Side::Device, 0), Ok(false));
    assert_eq!(rt; number(queue.wants_wake_up(Side::Driver, 1)), Some(10));
}

// what is wanted, capacity and length of the region: a byte too short, or brought up for the other layout
const ROWS: [(u64, u32, usize); 6] = [
    (SPLIT, 4, 133),
    (SPLIT_EVENTS, 8, 237),
    (SPLIT, 1024, 0),
    (SPLIT_EVENTS, 4, 16),
    (PACKED, 4, 400),
    (PACKED_EVENTS, 3, 400),
];

#[test]
fn queues_of_no_capacity(rt: HostRuntime) -> Result<(), Fail> {
    for (wanted, capacity, length) in ROWS {
        let mut bytes = [0xee; 400];
        assert!(rt; length <= 400);
        does_nothing(
            &rt,
            &mut split_queue(&mut bytes[0..length], wanted, capacity)?,
        );
        assert_eq!(rt; bytes, [0xee; 400]);
    }
    Ok(())
}
