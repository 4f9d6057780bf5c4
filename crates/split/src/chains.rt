// Chains: an entry laid in descriptors, and read back from them.
ghost use Rattle.std.specs.Prelude.{◌≡◌, ◌<◌, ◌≤◌, length};
ghost use Rattle.split_ring.specs.Chains.{link_to, laid, segment_of, chain_read};
ghost use Rattle.split_ring.specs.Lent.{written};

use entries::{Entry, Segment};
use split_ring::{Descriptor, NEXT, Region, RegionView, WRITE};

// The descriptor of a segment: its chain goes on at `next`, or ends.
fn link(segment: Segment, next: Option<u16>) -> Descriptor
    ensures by_the_rule { result ≡ link_to segment next }
{
    let write = if segment.writable { WRITE } else { 0 };
    Descriptor {
        start: segment.start,
        length: segment.length,
        flags: write + if next.is_some() { NEXT } else { 0 },
        next: next.unwrap_or(0),
    }
}

// Lays an entry in the descriptors from `first` on, which go round. That a chain has at most three segments is asked and told in
// clauses: a type for it would be taken off at once, by this loop and by the count that is kept.
#[tactic(auto, unfolding(split_ring::specs::Chains::laid))]
pub(crate) fn lay_chain(region: &mut Region, first: u16, new: Entry)
    requires first_within { first < region.old.capacity }
    requires known_capacity { region.old.capacity ≤ 1024 }
    requires a_chain { new.count ≤ 3 }
    ensures as_many_bytes { length region.new.bytes.now ≡ length region.old.bytes.now }
    ensures later_bytes { region.new ≡ written region.old (laid region.old.capacity region.old.bytes.now first new new.count) }
{
    let capacity = region.capacity;
    for (i, segment) in new.segments[..new.count].iter().enumerate() {
        let slot = (first + i as u16) % capacity;
        let next = (first + i as u16 + 1) % capacity;
        let more = i + 1 < new.count;
        region.put_descriptor(slot, link(*segment, if more { Some(next) } else { None }));
    }
}

fn segment_of(descriptor: Descriptor) -> Segment
    ensures by_the_rule { result ≡ segment_of descriptor }
{
    Segment {
        start: descriptor.start,
        length: descriptor.length,
        writable: descriptor.is_writable(),
    }
}

// Reads the chain of a head: as far as NEXT goes, and three descriptors at the most. Written out, since a loop that fills three
// places and may stop after each is no plainer.
#[tactic(auto, unfolding(split_ring::specs::Chains::chain_read))]
pub(crate) fn read_chain(region: RegionView, head: u16, tag: u16) -> Entry
    requires { 0 < region.capacity }
    ensures as_it_lies { result ≡ chain_read region.entry.bytes.now region.entry.capacity head tag }
    ensures at_most_three { result.count ≤ 3 }
{
    let capacity = region.capacity;
    let a = region.descriptor(head);
    if !a.goes_on() {
        return Entry {
            tag,
            count: 1,
            segments: [segment_of(a), Segment::UNUSED, Segment::UNUSED],
        };
    }
    let b = region.descriptor(a.next % capacity);
    if !b.goes_on() {
        return Entry {
            tag,
            count: 2,
            segments: [segment_of(a), segment_of(b), Segment::UNUSED],
        };
    }
    let c = region.descriptor(b.next % capacity);
    Entry {
        tag,
        count: 3,
        segments: [segment_of(a), segment_of(b), segment_of(c)],
    }
}
