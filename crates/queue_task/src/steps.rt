// One step, over a queue.
ghost use Rattle.class.specs.Kinds.{asked};
ghost use Rattle.queue_task.specs.Steps.{Stepped};

use carrying::Over;
use class::{Class, Request};
use queue::Queue;
use tasks::Result;

pub(crate) fn step<Q: Queue, C: Class>(
    rt: &HostRuntime,
    way: &mut Over<Q>,
    name: &str,
    tag: u16,
    request: Request<'_>,
    cell: &mut [u8],
    store: &mut [u8],
) -> Result<()>
    ensures as_carried { Q.sound way.old.queue → Stepped Q.sound Q.ops C.kind tag (asked request.entry) way.old.queue cell.old store.old way.new.queue cell.new store.new }
{
    tasks::step::<Over<Q>, C>(rt, way, name, tag, request, cell, store)
}
