// A queue as a way that requests go.
ghost use Rattle.std.specs.Prelude.{nat_lt};
ghost use Rattle.carrying.specs.Refusals.{holds_any};
ghost use Rattle.carrying.specs.Laws.{Carries};

use crate::carrying::carry;
use class::{Class, Reply, Request, Way};
use entries::Refusal;
use queue::Queue;

#[derive(Drop)]
pub struct Over<Q: Queue> {
    pub queue: Q,
}

impl<Q: Queue> Way for Over<Q> {
    ghost sound = { λ w. Q.sound w.queue };

    ghost too_small = { λ w n. nat_lt (Q.ops.capacity w.queue) n };

    ghost in_use = { λ w. holds_any Q.ops w.queue };

    ghost Went = { λ w kind t r cell store given w_then cell_then store_then. Carries Q.sound Q.ops kind t r w.queue cell store given w_then.queue cell_then store_then };

    fn carry<C: Class>(
        &mut self,
        tag: u16,
        request: Request<'_>,
        cell: &mut [u8],
        store: &mut [u8],
    ) -> Result<Reply, Refusal> {
        carry::<Q, C>(&mut self.queue, tag, request, cell, store)
    }
}
