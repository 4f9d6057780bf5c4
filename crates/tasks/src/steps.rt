// One request, whatever its class and its way, and a line that says what came of it.
ghost use Rattle.class.specs.Kinds.{asked};
ghost use Rattle.class.specs.Laws.{GoesOn};
ghost use Rattle.tasks.specs.Steps.{Stepped, WithSomeAnswer, refusal_on};

use crate::stop::Result;
use class::{Class, Reply, Request, Way};
use entries::Refusal;

// Prints how a request ended.
fn tell<C: Class>(
    rt: &HostRuntime,
    name: &str,
    answer: Result<Reply, Refusal>,
    cell: &[u8],
) -> Result<()> {
    match answer {
        Ok(reply) => println!(rt; "{name}: {reply}, data {} bytes", C::data(cell)?.len())?,
        Err(refusal) => println!(rt; "{name}: {refusal}")?,
    }
    Ok(())
}

pub fn step<W: Way, C: Class>(
    rt: &HostRuntime,
    way: &mut W,
    name: &str,
    tag: u16,
    request: Request<'_>,
    cell: &mut [u8],
    store: &mut [u8],
) -> Result<()>
    ensures as_carried { W.sound way.old → Stepped (refusal_on (W.too_small way.old) (W.in_use way.old) C.kind tag (asked request.entry) cell.old store.old) C.kind tag (asked request.entry) cell.old store.old cell.new store.new }
    ensures went { W.sound way.old → WithSomeAnswer (λ given. W.Went way.old C.kind tag (asked request.entry) cell.old store.old given way.new cell.new store.new) }
    ensures goes_on { W.sound way.old → GoesOn W.sound W.too_small W.in_use way.old way.new }
{
    let answer = way.carry::<C>(tag, request, cell, store);
    tell::<C>(rt, name, answer, cell)
}
