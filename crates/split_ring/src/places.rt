// Where things lie in a split region, area after area: the one place that has the numbers.
ghost use Rattle.std.specs.Prelude.{◌≡◌};
ghost use Rattle.split_ring.specs.Slots.{descriptor_place, driver_area, index_place, head_place, used_event_place, device_area, used_index_place, used_place, available_event_place, region_size};

// The descriptors, behind the header.
pub fn descriptor_place(slot: u16) -> usize
    ensures by_the_layout { result ≡ descriptor_place slot }
{
    16 + 16 * usize::from(slot)
}

// The driver area: flags, index, heads, used event.
pub fn driver_area(capacity: u16) -> usize
    ensures by_the_layout { result ≡ driver_area capacity }
{
    descriptor_place(capacity)
}

pub fn index_place(capacity: u16) -> usize
    ensures by_the_layout { result ≡ index_place capacity }
{
    driver_area(capacity) + 2
}

pub fn head_place(capacity: u16, slot: u16) -> usize
    ensures by_the_layout { result ≡ head_place capacity slot }
{
    index_place(capacity) + 2 + 2 * usize::from(slot)
}

pub fn used_event_place(capacity: u16) -> usize
    ensures by_the_layout { result ≡ used_event_place capacity }
{
    head_place(capacity, capacity)
}

// The device area, behind a gap of two bytes: flags, index, used elements, available event.
pub fn device_area(capacity: u16) -> usize
    ensures by_the_layout { result ≡ device_area capacity }
{
    used_event_place(capacity) + 4
}

pub fn used_index_place(capacity: u16) -> usize
    ensures by_the_layout { result ≡ used_index_place capacity }
{
    device_area(capacity) + 2
}

pub fn used_place(capacity: u16, slot: u16) -> usize
    ensures by_the_layout { result ≡ used_place capacity slot }
{
    used_index_place(capacity) + 2 + 8 * usize::from(slot)
}

pub fn available_event_place(capacity: u16) -> usize
    ensures by_the_layout { result ≡ available_event_place capacity }
{
    used_place(capacity, capacity)
}

// All the bytes of a region.
pub fn region_size(capacity: u16) -> usize
    ensures by_the_layout { result ≡ region_size capacity }
{
    available_event_place(capacity) + 2
}
