// Which capacities a queue may have, for each of the two layouts. One test for all who ask it.
ghost use Rattle.std.specs.Prelude.{◌≡◌, if◌then◌else◌, Some, None};
ghost use Rattle.bringup.specs.Capacities.{is_split_size, is_packed_size, fitting};

use crate::features::{RING_PACKED, has_all};

// The most descriptors of a queue of either layout.
pub const LARGEST_CAPACITY: u16 = 1024;

// Running positions wrap at 2^16, so that a split queue's capacity has to divide it.
const POSITIONS: u32 = 65_536;

pub fn is_split_size(k: u16) -> bool
    ensures by_the_rule { result ≡ is_split_size k }
{
    4 <= k && k <= LARGEST_CAPACITY && POSITIONS % u32::from(k) == 0
}

pub fn is_packed_size(k: u16) -> bool
    ensures by_the_rule { result ≡ is_packed_size k }
{
    3 <= k && k <= LARGEST_CAPACITY
}

// The capacity, if it is one of the layout's.
pub(crate) fn fitting(features: u64, capacity: u32) -> Option<u16>
    ensures by_the_rule { result ≡ (if fitting features capacity then Some capacity else None) }
{
    let k = u16::try_from(capacity).ok()?;
    let fits = if has_all(features, RING_PACKED) {
        is_packed_size(k)
    } else {
        is_split_size(k)
    };
    if fits { Some(k) } else { None }
}
