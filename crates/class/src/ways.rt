// The ways that a request may go, from being laid to being answered: handed over at once, or over a queue.
ghost use Rattle.std.specs.Prelude.{ℕ, Bool, false, List, Result};
ghost use Rattle.entries.specs.declared.refusals.Refusal.{Refusal};
ghost use Rattle.class.specs.declared.requests.Reply.{Reply};
ghost use Rattle.class.specs.Kinds.{Asked, Kind, asked};
ghost use Rattle.class.specs.Refusals.{way_refusal};
ghost use Rattle.class.specs.Laws.{CarriesBy, Carries, GoesOn};

use crate::carrying::carry;
use crate::interface::Class;
use crate::requests::{Reply, Request};
use entries::Refusal;

pub trait Way {
    // The ways that keep their promises: those that were made, and what going them leaves. A fact of the value, as of a queue.
    ghost sound: { Self → Type 0 };

    // Whether it has no room for chains of so many segments.
    ghost too_small: { Self → ℕ → Bool };

    // Whether something is still on it.
    ghost in_use: { Self → Bool };

    // What it promises besides of a request that went it: by the way, the class, the tag and the request, and by the cell and the
    // store, the answer, and all three afterwards.
    ghost Went: { Self → Kind → ℕ → Asked → List ℕ → List ℕ → Result Reply Refusal → Self → List ℕ → List ℕ → Type 0 };

    // Carries one request through, whatever its class.
    fn carry<C: Class>(
        &mut self,
        tag: u16,
        request: Request<'_>,
        cell: &mut [u8],
        store: &mut [u8],
    ) -> Result<Reply, Refusal>
        ensures plain_service { sound self.old → CarriesBy (way_refusal (too_small self.old C.kind.longest) (in_use self.old) tag (C.kind.refuses (asked request.entry)) C.kind.least cell.old store.old) C.kind tag (asked request.entry) cell.old store.old result cell.new store.new }
        ensures went { sound self.old → Went self.old C.kind tag (asked request.entry) cell.old store.old result self.new cell.new store.new }
        ensures goes_on { sound self.old → GoesOn sound too_small in_use self.old self.new };
}

// Handed from the driver to the device at once.
#[derive(Clone, Copy)]
pub struct ByHand;

impl Way for ByHand {
    ghost sound = { λ _. Unit {0} };

    ghost too_small = { λ _ _. false };

    ghost in_use = { λ _. false };

    ghost Went = { λ _ kind t r cell store given _ cell_then store_then. Carries kind t r cell store given cell_then store_then };

    fn carry<C: Class>(
        &mut self,
        tag: u16,
        request: Request<'_>,
        cell: &mut [u8],
        store: &mut [u8],
    ) -> Result<Reply, Refusal> {
        carry::<C>(tag, request, cell, store)
    }
}
