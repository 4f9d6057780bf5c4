// One request, from the driver's hand to its answer. Its parameters stay apart, as where nothing lies between.
ghost use Rattle.std.specs.Prelude.{◌≡◌, None};
ghost use Rattle.class.specs.Kinds.{asked};
ghost use Rattle.carrying.specs.Refusals.{refusal_for};
ghost use Rattle.carrying.specs.Laws.{RefusedAtOnce, Carries};

use crate::checks::check_carry;
use crate::stages::{collect_reply, lay_and_publish, take_and_serve};
use class::{Class, Reply, Request};
use entries::Refusal;
use queue::Queue;

// Passes a request through once nothing refuses it.
fn pass_through<Q: Queue, C: Class>(
    queue: &mut Q,
    tag: u16,
    request: Request<'_>,
    cell: &mut [u8],
    store: &mut [u8],
) -> Result<Reply, Refusal>
    requires { refusal_for Q.ops C.kind queue.old tag (asked request) cell.old store.old ≡ None }
    ensures plain_service { Q.sound queue.old → Carries Q.sound Q.ops C.kind tag (asked request.entry) queue.old cell.old store.old result queue.new cell.new store.new }
{
    lay_and_publish::<Q, C>(queue, tag, request, cell)?;
    take_and_serve::<Q, C>(queue, cell, store)?;
    collect_reply::<Q, C>(queue, cell)
}

// Lays a request, publishes it on an idle queue, takes it off, serves it, finishes it, and collects it. What comes of it is
// what the class's plain service says; the data lies in the cell, and the queue is idle again.
pub fn carry<Q: Queue, C: Class>(
    queue: &mut Q,
    tag: u16,
    request: Request<'_>,
    cell: &mut [u8],
    store: &mut [u8],
) -> Result<Reply, Refusal>
    ensures refused_at_once { RefusedAtOnce (refusal_for Q.ops C.kind queue.old tag (asked request.entry) cell.old store.old) queue.old cell.old store.old result queue.new cell.new store.new }
    ensures plain_service { Q.sound queue.old → Carries Q.sound Q.ops C.kind tag (asked request.entry) queue.old cell.old store.old result queue.new cell.new store.new }
{
    check_carry::<Q, C>(queue, tag, request, cell, store)?;
    pass_through::<Q, C>(queue, tag, request, cell, store)
}
