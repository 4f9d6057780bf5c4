// The three stages of a request's way: to the queue, over the device, and back to the driver.
// A queue that keeps its meaning never answers that it has nothing here; any other is answered as in use.
ghost use Rattle.std.specs.Prelude.{◌≡◌, None};
ghost use Rattle.class.specs.Kinds.{asked};
ghost use Rattle.class.specs.Refusals.{lay_refusal};
ghost use Rattle.carrying.specs.Stages.{ServesWhatIsTaken, TellsWhatIsCollected};

use class::{Class, Reply, Request};
use entries::Refusal;
use queue::Queue;

// The driver lays the request and publishes its entry.
pub(crate) fn lay_and_publish<Q: Queue, C: Class>(
    queue: &mut Q,
    tag: u16,
    request: Request<'_>,
    cell: &mut [u8],
) -> Result<(), Refusal>
    requires { lay_refusal tag (C.kind.refuses (asked request)) cell.old ≡ None }
    ensures answer { result ≡ Q.ops.publish_answer queue.old (C.kind.entry tag (asked request.entry)) }
    ensures later_queue { queue.new ≡ Q.ops.published queue.old (C.kind.entry tag (asked request.entry)) }
    ensures later_cell { cell.new ≡ C.kind.lays (asked request.entry) cell.old }
{
    let entry = C::lay(tag, request, cell)?;
    queue.publish(entry)
}

// The device takes an entry, serves it and finishes it.
pub(crate) fn take_and_serve<Q: Queue, C: Class>(
    queue: &mut Q,
    cell: &mut [u8],
    store: &mut [u8],
) -> Result<(), Refusal>
    ensures serves_what_is_taken { ServesWhatIsTaken Q.ops C.kind queue.old cell.old store.old result queue.new cell.new store.new }
{
    let Some(entry) = queue.take() else {
        return Err(Refusal::QueueInUse);
    };
    let written = C::serve(&entry, cell, store)?;
    queue.finish(written)
}

// The driver collects what is finished and reads the status.
pub(crate) fn collect_reply<Q: Queue, C: Class>(
    queue: &mut Q,
    cell: &[u8],
) -> Result<Reply, Refusal>
    ensures later_queue { queue.new ≡ Q.ops.collected queue.old }
    ensures tells_what_is_collected { TellsWhatIsCollected Q.ops C.kind queue.old cell.now result }
{
    let Some(back) = queue.collect() else {
        return Err(Refusal::QueueInUse);
    };
    let status = C::status(cell)?;
    Ok(Reply {
        status,
        written: back.written,
    })
}
