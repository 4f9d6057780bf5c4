// Queues that carry nothing: one without room for the longest chain, and one that is in use.
use crate::cases::{IN_CELL, IN_STORE, queue};
use block::Block;
use carrying::carry;
use class::{CELL_SIZE, Request};
use entries::{Entry, Refusal, Segment};
use queue::Queue;
use std::test::Fail;

// The number by which a block request under tag 0 is refused, if it is, and whether cell and store are as they were.
fn told<Q: Queue>(queue: &mut Q, request: Request<'_>) -> (Option<u8>, bool) {
    let mut cell = [IN_CELL; CELL_SIZE];
    let mut store = [IN_STORE; 1024];
    let answer = carry::<Q, Block>(queue, 0, request, &mut cell, &mut store);
    (
        answer.err().map(Refusal::number),
        cell == [IN_CELL; CELL_SIZE] && store == [IN_STORE; 1024],
    )
}

#[test]
fn queues_that_carry_nothing(rt: HostRuntime) -> Result<(), Fail> {
    let read = Request::bare(0, 0);
    let bad = Request::bare(4, 1);
    let mut short = [0xee; 133];
    let mut none = queue(&mut short)?;
    assert_eq!(rt; told(&mut none, read), (Some(3), true));
    let mut region = [0xee; 134];
    let mut used = queue(&mut region)?;
    let single = Segment {
        start: 0,
        length: 1,
        writable: true,
    };
    let entry = Entry {
        tag: 3,
        count: 1,
        segments: [single, Segment::UNUSED, Segment::UNUSED],
    };
    assert!(rt; used.publish(entry).is_ok());
    assert_eq!(rt; told(&mut used, read), (Some(9), true));
    assert_eq!(rt; told(&mut used, bad), (Some(6), true));
    assert!(rt; used.take().is_some());
    assert_eq!(rt; told(&mut used, read), (Some(9), true));
    assert!(rt; used.finish(0).is_ok());
    assert_eq!(rt; told(&mut used, read), (Some(9), true));
    assert!(rt; used.collect().is_some());
    assert_eq!(rt; told(&mut used, read), (None, false));
    Ok(())
}
