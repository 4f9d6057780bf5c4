// Feature bits as masks, and which of them may be agreed on. They stay bits of a number, as a device offers them: it may offer any,
// and one that is not known here is refused as such.
ghost use Rattle.std.specs.Prelude.{◌≡◌};
ghost use Rattle.bringup.specs.Features.{has_all, agreeable};

// the driver and the device each say when they want to be notified
pub const EVENT_IDX: u64 = 1 << 29;
// the device is one of version 1; this engine drives no other
pub const VERSION_1: u64 = 1 << 32;
// the queue has the packed layout; without it, the split one
pub const RING_PACKED: u64 = 1 << 34;
// all that this engine speaks
pub const SPOKEN: u64 = EVENT_IDX | VERSION_1 | RING_PACKED;

pub(crate) fn has_all(features: u64, mask: u64) -> bool
    ensures every_bit_of_the_mask { result ≡ has_all features mask }
{
    features & mask == mask
}

pub(crate) fn is_agreeable(offered: u64, wanted: u64) -> bool
    ensures by_the_rule { result ≡ agreeable offered wanted }
{
    has_all(offered, wanted) && has_all(SPOKEN, wanted) && has_all(wanted, VERSION_1)
}
