// Descriptors: one segment of a chain each, and where the chain goes on.
ghost use Rattle.std.specs.Prelude.{◌≡◌, ◌/◌, ◌%◌, ◌==◌, length};
ghost use Rattle.split_ring.specs.Slots.{descriptor_at, put_descriptor};
ghost use Rattle.split_ring.specs.Chains.{goes_on};
ghost use Rattle.split_ring.specs.Lent.{written};

use crate::places::descriptor_place;
use crate::region::{Region, RegionView};
use words::{get, put};

// The chain goes on at `next`.
pub const NEXT: u16 = 1;

// The device may write the segment.
pub const WRITE: u16 = 2;

// As it lies: its flags stay a number, in which the other side may set bits that have no name here.
#[derive(Clone, Copy, PartialEq, Eq, Debug)]
pub struct Descriptor {
    pub start: u64,
    pub length: u32,
    pub flags: u16,
    pub next: u16,
}

impl Descriptor {
    pub fn goes_on(self) -> bool
        ensures by_the_flag { result ≡ goes_on self }
    {
        self.flags % 2 == NEXT
    }

    pub fn is_writable(self) -> bool
        ensures by_the_flag { result ≡ (self.flags / 2 % 2 == 1) }
    {
        self.flags / WRITE % 2 == 1
    }
}

impl RegionView<'_> {
    pub fn descriptor(self, slot: u16) -> Descriptor
        ensures as_it_lies { result ≡ descriptor_at self.entry.bytes.now slot }
    {
        let at = descriptor_place(slot);
        Descriptor {
            start: get(self.bytes, at),
            length: get(self.bytes, at + 8),
            flags: get(self.bytes, at + 12),
            next: get(self.bytes, at + 14),
        }
    }
}

impl Region<'_> {
    pub fn put_descriptor(&mut self, slot: u16, descriptor: Descriptor)
        ensures later_bytes { self.new ≡ written self.old (put_descriptor self.old.bytes.now slot descriptor) }
        ensures as_many_bytes { length self.new.bytes.now ≡ length self.old.bytes.now }
    {
        let at = descriptor_place(slot);
        put(self.bytes, at, descriptor.start);
        put(self.bytes, at + 8, descriptor.length);
        put(self.bytes, at + 12, descriptor.flags);
        put(self.bytes, at + 14, descriptor.next);
    }
}
