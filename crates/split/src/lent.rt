// The region that is lent to a queue: as long as it is, its bytes serve its capacity.
ghost use Rattle.std.specs.Prelude.{◌≡◌, ◌<◌, ◌≤◌, true};
ghost use Rattle.words.specs.Numbers.{put};
ghost use Rattle.split_ring.specs.Slots.{put_head, put_used};
ghost use Rattle.split_ring.specs.Chains.{laid};
ghost use Rattle.split_ring.specs.Lent.{Serves, serves, written};
ghost use Rattle.split.specs.Lent.{lent};

use crate::chains::lay_chain;
use bringup::LARGEST_CAPACITY;
use entries::Entry;
use split_ring::{Region, RegionView, UsedElement, region_size};
use std::marker::Model;

const LEAST_CAPACITY: u16 = 4;

#[tactic(auto, unfolding(split_ring::specs::Lent::serves))]
fn serves(bytes: &[u8], capacity: u16) -> bool
    ensures by_the_rule { result ≡ serves capacity bytes.now }
{
    LEAST_CAPACITY <= capacity
        && capacity <= LARGEST_CAPACITY
        && region_size(capacity) <= bytes.len()
}

#[derive(Drop)]
pub(crate) struct Lent<'a> {
    region: Region<'a>,
}

impl<'a> Model for Lent<'a> {
    ghost use Rattle.split_ring.specs.declared.region.Region.{Region};
    ghost use Rattle.split_ring.specs.Lent.{Serves};

    ghost Value = { Region };

    ghost view = { λ l. l.region };

    ghost invariant = { λ l. Serves l.region.capacity l.region.bytes.now };
}

#[tactic(auto, using(split_ring::proofs::Lending::serves_true, split_ring::proofs::Lending::true_serves))]
impl<'a> Lent<'a> {
    // Bytes that do not serve a queue of that capacity are handed back.
    pub(crate) fn new(bytes: &'a mut [u8], capacity: u16) -> Result<Lent<'a>, &'a mut [u8]>
        ensures exactly_when_they_serve { result ≡ lent bytes.entry capacity }
    {
        if serves(bytes, capacity) {
            let region = Region { bytes, capacity };
            Ok(Lent { region })
        } else {
            Err(bytes)
        }
    }

    pub(crate) fn view(&self) -> RegionView<'_>
        ensures same_bytes { result.bytes.now ≡ self.now.bytes.now }
        ensures same_capacity { result.capacity ≡ self.now.capacity }
        ensures numbers_fit { Serves self.now.capacity self.now.bytes.now }
        ensures enough_bytes { serves self.now.capacity self.now.bytes.now ≡ true }
    {
        self.region.view()
    }

    // What the type says of the region, where nothing is read of it and a law has to be told. Nothing runs.
    pub(crate) fn served(&self)
        ensures enough_bytes { serves self.now.capacity self.now.bytes.now ≡ true }
    {
        let _ = &self.region;
    }

    // Ends the lending.
    pub(crate) fn into_bytes(self) -> &'a mut [u8]
        ensures all_of_them { result ≡ self.entry.bytes }
    {
        let Lent { region } = self;
        let Region { bytes, capacity: _ } = region;
        bytes
    }

    // Lays an entry's chain from a descriptor on, writes that as the head in a slot, and then the index that makes it visible.
    pub(crate) fn publish(&mut self, entry: Entry, first: u16, slot: u16, index: u16)
        requires first_within { first < self.old.capacity }
        requires a_chain { entry.count ≤ 3 }
        ensures later_bytes { self.new ≡ written self.old (put_head self.old.capacity (laid self.old.capacity self.old.bytes.now first entry entry.count) slot first index) }
    {
        lay_chain(&mut self.region, first, entry);
        self.region.publish_head(slot, first, index);
    }

    pub(crate) fn return_used(&mut self, slot: u16, element: UsedElement, index: u16)
        ensures later_bytes { self.new ≡ written self.old (put_used self.old.capacity self.old.bytes.now slot element index) }
    {
        self.region.return_used(slot, element, index);
    }

    pub(crate) fn put_word(&mut self, at: usize, word: u16)
        ensures later_bytes { self.new ≡ written self.old (put 2 self.old.bytes.now at word) }
    {
        self.region.put_word(at, word);
    }
}
