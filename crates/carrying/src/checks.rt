// The refusals of carrying a request, all asked before anything is touched.
ghost use Rattle.std.specs.Prelude.{◌≡◌, not};
ghost use Rattle.entries.specs.Refusals.{unless};
ghost use Rattle.class.specs.Kinds.{asked};
ghost use Rattle.carrying.specs.Refusals.{holds_any, refusal_for};

use class::{Class, Request, check_room, check_tag};
use entries::Refusal;
use queue::{Queue, Stage};

// A queue is idle where none of its three lists has an entry.
fn is_idle<Q: Queue>(queue: &Q) -> bool
    ensures three_empty_lists { result ≡ not (holds_any Q.ops queue.now) }
{
    queue.entries(Stage::Out) == 0
        && queue.entries(Stage::Held) == 0
        && queue.entries(Stage::Back) == 0
}

pub(crate) fn check_carry<Q: Queue, C: Class>(
    queue: &Q,
    tag: u16,
    request: Request<'_>,
    cell: &[u8],
    store: &[u8],
) -> Result<(), Refusal>
    ensures smallest_that_fits { result ≡ unless (refusal_for Q.ops C.kind queue.now tag (asked request.entry) cell.now store.now) tt }
{
    if (queue.capacity() as usize) < C::LONGEST_CHAIN {
        return Err(Refusal::GroupSize);
    }
    check_room(C::LEAST_STORE, cell, store)?;
    if C::refuses(request) {
        return Err(Refusal::BadRequest);
    }
    check_tag(tag)?;
    if !is_idle(queue) {
        return Err(Refusal::QueueInUse);
    }
    Ok(())
}
