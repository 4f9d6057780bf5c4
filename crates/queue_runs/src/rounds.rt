// Rounds of any queue: entries in, entries out, compared field by field.
use crate::bring_up::{SPLIT, SPLIT_EVENTS, split_queue};
use entries::{Entry, Segment};
use queue::{Position, Queue, Side, Stage};
use std::process::Abort;
use std::test::Fail;

// An entry of one to three segments that no other number gives.
pub(crate) fn entry(n: u32) -> Entry {
    let start = u64::from(n) * 1_000_003;
    let a = Segment {
        start,
        length: n % 512 + 1,
        writable: false,
    };
    let b = Segment {
        start: start + 7,
        length: n % 7 + 1,
        writable: n % 2 == 0,
    };
    let c = Segment {
        start: start + 9,
        length: n % 5 + 1,
        writable: true,
    };
    let tag = (n % 16) as u16;
    match n % 3 {
        0 => Entry {
            tag,
            count: 1,
            segments: [a, Segment::UNUSED, Segment::UNUSED],
        },
        1 => Entry {
            tag,
            count: 2,
            segments: [a, b, Segment::UNUSED],
        },
        _ => Entry {
            tag,
            count: 3,
            segments: [a, b, c],
        },
    }
}

// Takes the oldest and says whether it is entry n.
fn takes<Q: Queue>(queue: &mut Q, n: u32) -> bool {
    queue.take().is_some_and(|taken| taken.is_same(&entry(n)))
}

// Collects the oldest and says whether it is entry n, finished with n bytes.
fn collects<Q: Queue>(queue: &mut Q, n: u32) -> bool {
    let sent = entry(n);
    let back = queue.collect();
    back.map(|back| (back.tag, back.count, back.written)) == Some((sent.tag, sent.count, n))
}

// One entry through an empty queue, with the wake-up questions of both sides, each of which armed before.
fn round<Q: Queue>(rt: &impl Abort, queue: &mut Q, n: u32) {
    let mark = queue.position(Position::Published);
    let device = queue.position(Position::Finished);
    queue.arm(Side::Device);
    queue.arm(Side::Driver);
    assert_eq!(rt; queue.wants_wake_up(Side::Device, mark), Ok(false));
    assert_eq!(rt; queue.publish(entry(n)), Ok(()));
    assert_eq!(rt; queue.wants_wake_up(Side::Device, mark), Ok(true));
    assert!(rt; takes(queue, n));
    assert_eq!(rt; queue.wants_wake_up(Side::Driver, device), Ok(false));
    assert_eq!(rt; queue.finish(n), Ok(()));
    assert_eq!(rt; queue.wants_wake_up(Side::Driver, device), Ok(true));
    assert!(rt; collects(queue, n));
}

// Fills the queue, as far as it goes, and gives how many entries went in.
fn fill<Q: Queue>(queue: &mut Q, from: u32) -> u32 {
    (0..1025)
        .find(|i| queue.publish(entry(from.wrapping_add(*i))).is_err())
        .unwrap_or(1025)
}

// Empties a queue that holds these entries, list by list.
fn empty<Q: Queue>(rt: &impl Abort, queue: &mut Q, from: u32, count: u32) {
    for i in 0..count {
        assert!(rt; takes(queue, from.wrapping_add(i)));
    }
    assert!(rt; queue.take().is_none());
    assert_eq!(rt; queue.entries(Stage::Held), count);
    for i in 0..count {
        assert_eq!(rt; queue.finish(from.wrapping_add(i)), Ok(()));
    }
    assert_eq!(rt; queue.entries(Stage::Back), count);
    for i in 0..count {
        assert!(rt; collects(queue, from.wrapping_add(i)));
    }
    assert!(rt; queue.collect().is_none());
    assert_eq!(rt; queue.segments(Stage::Back), 0);
}

// Full and empty again, at `times` offsets.
fn fill_and_empty<Q: Queue>(rt: &impl Abort, queue: &mut Q, times: u32) {
    let mut from = 0u32;
    for _ in 0..times {
        let count = fill(queue, from);
        assert_eq!(rt; queue.entries(Stage::Out), count);
        assert!(rt; u64::from(queue.segments(Stage::Out)) + 3 > u64::from(queue.capacity()));
        empty(rt, queue, from, count);
        from = from.wrapping_add(count).wrapping_add(1);
    }
}

#[test]
fn split_queues_past_the_wrap(rt: HostRuntime) -> Result<(), Fail> {
    for wanted in [SPLIT, SPLIT_EVENTS] {
        let mut region = [0xee; 134];
        let mut queue = split_queue(&mut region, wanted, 4)?;
        for n in 0..70_000u32 {
            round(&rt, &mut queue, n);
        }
        assert_eq!(rt; queue.position(Position::Collected), 70_000 - 65_536);
    }
    Ok(())
}

#[test]
fn split_queues_full_and_empty(rt: HostRuntime) -> Result<(), Fail> {
    let mut small = [0xee; 134];
    fill_and_empty(&rt, &mut split_queue(&mut small, SPLIT, 4)?, 50);
    let mut large = [0xee; 26_654];
    fill_and_empty(&rt, &mut split_queue(&mut large, SPLIT_EVENTS, 1024)?, 20);
    Ok(())
}
