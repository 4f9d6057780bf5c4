// Three chains on the queue at once: what goes in first comes out first, whatever the lengths.
use crate::queues::tell_positions;
use entries::{Entry, Segment};
use queue::{Call, Queue, perform};
use tasks::Result;

// An entry of so many segments, of which only the last is the device's to write.
fn chain(tag: u16, count: usize) -> Entry {
    let read = Segment {
        start: 16,
        length: 512,
        writable: false,
    };
    let write = Segment {
        start: 528,
        length: 1,
        writable: true,
    };
    let segments = match count {
        1 => [write, Segment::UNUSED, Segment::UNUSED],
        2 => [read, write, Segment::UNUSED],
        _ => [read, read, write],
    };
    Entry {
        tag,
        count,
        segments,
    }
}

pub(crate) fn three_in_flight<Q: Queue>(rt: &HostRuntime, queue: &mut Q) -> Result<()> {
    let calls = [
        Call::Finish(0),
        Call::Publish(chain(4, 3)),
        Call::Publish(chain(5, 1)),
        Call::Publish(chain(6, 2)),
        Call::Publish(chain(7, 3)),
        Call::Publish(chain(16, 1)),
        Call::Take,
        Call::Take,
        Call::Finish(40),
        Call::Collect,
        Call::Take,
        Call::Finish(50),
        Call::Finish(60),
        Call::Collect,
        Call::Collect,
        Call::Collect,
        Call::Take,
    ];
    for call in calls {
        println!(rt; "{}", perform(queue, call))?;
    }
    tell_positions(rt, queue)
}
