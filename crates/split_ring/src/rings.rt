// The available ring, which the driver writes, and the used ring, which the device writes. Two rings and not one type of ring: an
// element of one is a head, and of the other a head and a length, so that a type of both would say less than the fields do.
ghost use Rattle.std.specs.Prelude.{◌≡◌, length};
ghost use Rattle.words.specs.Numbers.{get};
ghost use Rattle.split_ring.specs.Slots.{index_place, head_at, used_index_place, used_at, put_head, put_used};
ghost use Rattle.split_ring.specs.Lent.{written};

use crate::places::{head_place, index_place, used_index_place, used_place};
use crate::region::{Region, RegionView};
use words::{get, put};

// A finished chain: its first descriptor, and how many bytes the device says it wrote.
#[derive(Clone, Copy, PartialEq, Eq, Debug)]
pub struct UsedElement {
    pub head: u32,
    pub written: u32,
}

impl RegionView<'_> {
    // How far the driver says that it has published.
    pub fn available_index(self) -> u16
        ensures as_it_lies { result ≡ get 2 self.entry.bytes.now (index_place self.entry.capacity) }
    {
        get(self.bytes, index_place(self.capacity))
    }

    // The head in a slot of the available ring.
    pub fn head(self, slot: u16) -> u16
        ensures as_it_lies { result ≡ head_at self.entry.capacity self.entry.bytes.now slot }
    {
        get(self.bytes, head_place(self.capacity, slot))
    }

    // How far the device says that it has finished.
    pub fn used_index(self) -> u16
        ensures as_it_lies { result ≡ get 2 self.entry.bytes.now (used_index_place self.entry.capacity) }
    {
        get(self.bytes, used_index_place(self.capacity))
    }

    // The element in a slot of the used ring.
    pub fn used(self, slot: u16) -> UsedElement
        ensures as_it_lies { result ≡ used_at self.entry.capacity self.entry.bytes.now slot }
    {
        let at = used_place(self.capacity, slot);
        UsedElement {
            head: get(self.bytes, at),
            written: get(self.bytes, at + 4),
        }
    }
}

impl Region<'_> {
    // Writes a head into its slot, and then the index that makes it visible.
    pub fn publish_head(&mut self, slot: u16, first: u16, index: u16)
        ensures later_bytes { self.new ≡ written self.old (put_head self.old.capacity self.old.bytes.now slot first index) }
        ensures as_many_bytes { length self.new.bytes.now ≡ length self.old.bytes.now }
    {
        let capacity = self.capacity;
        put(self.bytes, head_place(capacity, slot), first);
        put(self.bytes, index_place(capacity), index);
    }

    // Writes a used element into its slot, and then the index that makes it visible.
    pub fn return_used(&mut self, slot: u16, element: UsedElement, index: u16)
        ensures later_bytes { self.new ≡ written self.old (put_used self.old.capacity self.old.bytes.now slot element index) }
        ensures as_many_bytes { length self.new.bytes.now ≡ length self.old.bytes.now }
    {
        let capacity = self.capacity;
        let at = used_place(capacity, slot);
        put(self.bytes, at, element.head);
        put(self.bytes, at + 4, element.written);
        put(self.bytes, used_index_place(capacity), index);
    }
}
