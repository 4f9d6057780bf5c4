// The four moves of an entry.
ghost use Rattle.std.specs.Prelude.{◌≡◌, ◌-◌, ◌%◌, ◌<◌, ◌≤◌, not, None, nat_lt, IfOk};
ghost use Rattle.entries.specs.declared.refusals.Refusal.TheVariants.{BadEntry, NoRoom};
ghost use Rattle.entries.specs.Refusals.{refuse, unless};
ghost use Rattle.split_ring.specs.Ring.{capacity, modulus_of, busy, publish_refused, with_entry, chain_at, head_in, has_out, oldest_out, has_held, with_finished, has_back, oldest_back, ring_ops};
ghost use Rattle.split.specs.State.{ring_of, serving, Told};

use crate::chains::read_chain;
use crate::state::Serving;
use crate::suppression::MODULUS;
use entries::{Entry, Refusal};
use queue::Finished;
use split_ring::{Chain, UsedElement};

// Whether an entry may be published: `legal` is its own judgement.
pub(crate) fn judge(legal: bool, free: u16, count: usize) -> Result<(), Refusal>
    ensures smallest_that_fits { result ≡ unless (refuse BadEntry (not legal) (refuse NoRoom (nat_lt free count) None)) tt }
{
    if !legal {
        return Err(Refusal::BadEntry);
    }
    if usize::from(free) < count {
        return Err(Refusal::NoRoom);
    }
    Ok(())
}

impl Serving<'_> {
    pub(crate) fn capacity(&self) -> u32
        ensures answer { result ≡ capacity (ring_of self.now) }
    {
        u32::from(self.region.view().capacity)
    }

    pub(crate) fn modulus(&self) -> u32
        ensures answer { result ≡ modulus_of (ring_of self.now) }
    {
        self.region.served();
        MODULUS
    }

    // How many segments are free.
    fn free(&self) -> u16
        ensures what_is_left { result ≡ capacity (ring_of self.now) - busy (ring_of self.now) }
    {
        let busy = self.published.since(self.collected).descriptor;
        self.region.view().capacity.saturating_sub(busy)
    }

    // Refuses an entry that is not legal or has more segments than are free.
    fn check_publish(&self, entry: Entry) -> Result<(), Refusal>
        ensures smallest_that_fits { Told (publish_refused (ring_of self.now) entry) result }
        ensures a_chain { IfOk result (λ _. entry.count ≤ 3) }
    {
        judge(entry.is_legal(), self.free(), entry.count)
    }

    fn lay(&mut self, entry: Entry)
        requires { entry.count ≤ 3 }
        ensures later_queue { self.new ≡ serving self.old (with_entry (ring_of self.old) entry) }
    {
        let k = self.region.view().capacity;
        let first = self.published.descriptor % k;
        let slot = self.published.position % k;
        let chain = Chain {
            tag: entry.tag,
            count: entry.count as u16,
        };
        let after = self.published.past(chain.count);
        self.region.publish(entry, first, slot, after.position);
        self.published = after;
        self.chains[usize::from(first)] = chain;
    }

    pub(crate) fn publish(&mut self, entry: Entry) -> Result<(), Refusal>
        ensures answer { result ≡ ring_ops.publish_answer (ring_of self.old) entry }
        ensures later_queue { self.new ≡ serving self.old (ring_ops.published (ring_of self.old) entry) }
    {
        self.check_publish(entry)?;
        self.lay(entry);
        Ok(())
    }

    // The first descriptor of the chain whose head is in the slot of a position.
    fn first_at(&self, position: u16) -> u16
        ensures as_it_lies { result ≡ head_in (ring_of self.now) (position % self.now.region.capacity) }
        ensures within { result < 1024 }
    {
        let region = self.region.view();
        let k = region.capacity;
        region.head(position % k) % k
    }

    // What is kept of the chain that starts at a descriptor.
    fn chain(&self, first: usize) -> Chain
        requires { first < 1024 }
        ensures as_it_was_kept { result ≡ chain_at (ring_of self.now) first }
    {
        self.chains[first]
    }

    // Three tests and not one, since each asks another side: the driver's index, the device's own cursor, the device's index.

    // Something is out when the driver's index, in the region, has gone past what the device has taken.
    fn has_out(&self) -> bool
        ensures by_the_rule { result ≡ has_out (ring_of self.now) }
    {
        self.taken.position != self.region.view().available_index()
    }

    #[tactic(auto, unfolding(split_ring::specs::Ring::entry_in))]
    fn oldest_out(&self) -> Entry
        ensures as_it_lies { result ≡ oldest_out (ring_of self.now) }
        ensures at_most_three { result.count ≤ 3 }
    {
        let first = self.first_at(self.taken.position);
        read_chain(
            self.region.view(),
            first,
            self.chain(usize::from(first)).tag,
        )
    }

    pub(crate) fn take(&mut self) -> Option<Entry>
        ensures answer { result ≡ ring_ops.take_answer (ring_of self.old) }
        ensures later_queue { self.new ≡ serving self.old (ring_ops.taken (ring_of self.old)) }
    {
        if !self.has_out() {
            return None;
        }
        let entry = self.oldest_out();
        self.taken = self.taken.past(entry.count as u16);
        Some(entry)
    }

    fn has_held(&self) -> bool
        ensures by_the_rule { result ≡ has_held (ring_of self.now) }
    {
        self.region.served();
        self.finished.position != self.taken.position
    }

    fn give_back(&mut self, written: u32)
        ensures later_queue { self.new ≡ serving self.old (with_finished (ring_of self.old) written) }
    {
        let slot = self.finished.position % self.region.view().capacity;
        let first = self.first_at(self.finished.position);
        let after = self.finished.past(self.chain(usize::from(first)).count);
        let element = UsedElement {
            head: u32::from(first),
            written,
        };
        self.region.return_used(slot, element, after.position);
        self.finished = after;
    }

    pub(crate) fn finish(&mut self, written: u32) -> Result<(), Refusal>
        ensures answer { result ≡ ring_ops.finish_answer (ring_of self.old) }
        ensures later_queue { self.new ≡ serving self.old (ring_ops.finished (ring_of self.old) written) }
    {
        if !self.has_held() {
            return Err(Refusal::NothingHeld);
        }
        self.give_back(written);
        Ok(())
    }

    // Something is back when the device's index, in the region, has gone past what the driver has collected.
    fn has_back(&self) -> bool
        ensures by_the_rule { result ≡ has_back (ring_of self.now) }
    {
        self.collected.position != self.region.view().used_index()
    }

    #[tactic(auto, unfolding(split_ring::specs::Ring::finished_in))]
    fn oldest_back(&self) -> Finished
        ensures as_it_lies { result ≡ oldest_back (ring_of self.now) }
        ensures small_count { result.count < 65536 }
    {
        let region = self.region.view();
        let k = region.capacity;
        let element = region.used(self.collected.position % k);
        let chain = self.chain((element.head % u32::from(k)) as usize);
        Finished {
            tag: chain.tag,
            span: 1,
            count: usize::from(chain.count),
            written: element.written,
        }
    }

    pub(crate) fn collect(&mut self) -> Option<Finished>
        ensures answer { result ≡ ring_ops.collect_answer (ring_of self.old) }
        ensures later_queue { self.new ≡ serving self.old (ring_ops.collected (ring_of self.old)) }
    {
        if !self.has_back() {
            return None;
        }
        let finished = self.oldest_back();
        self.collected = self.collected.past(finished.count as u16);
        Some(finished)
    }
}
