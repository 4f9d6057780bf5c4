// One request, from the driver's hand to its answer.
ghost use Rattle.std.specs.Prelude.{◌≡◌, None};
ghost use Rattle.class.specs.Kinds.{asked};
ghost use Rattle.class.specs.Refusals.{room_refusal};
ghost use Rattle.class.specs.Laws.{Carries};

use crate::checks::check_room;
use crate::interface::Class;
use crate::requests::{Reply, Request};
use entries::Refusal;

// The tag, the request, the cell and the store stay four parameters, here and over a queue: the tag is picked for a request that
// a guest made, laying sees the cell alone, and serving sees it with the store; no pair of them goes through all the calls.

// Lays and serves on a cell and a store that serving takes, so that no refusal finds the cell changed.
fn lay_and_serve<C: Class>(
    tag: u16,
    request: Request<'_>,
    cell: &mut [u8],
    store: &mut [u8],
) -> Result<Reply, Refusal>
    requires { room_refusal C.kind.least cell.old store.old ≡ None }
    ensures plain_service { Carries C.kind tag (asked request.entry) cell.old store.old result cell.new store.new }
{
    let entry = C::lay(tag, request, cell)?;
    let written = C::serve(&entry, cell, store)?;
    let status = C::status(cell)?;
    Ok(Reply { status, written })
}

// Lays a request and serves it. What comes of it is what the class's plain service says; the data lies in the cell.
pub fn carry<C: Class>(
    tag: u16,
    request: Request<'_>,
    cell: &mut [u8],
    store: &mut [u8],
) -> Result<Reply, Refusal>
    ensures plain_service { Carries C.kind tag (asked request.entry) cell.old store.old result cell.new store.new }
{
    check_room(C::LEAST_STORE, cell, store)?;
    lay_and_serve::<C>(tag, request, cell, store)
}
