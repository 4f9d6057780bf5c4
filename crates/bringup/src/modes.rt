// What the features choose for the queue: its layout, and how its two sides are notified.
ghost use Rattle.std.specs.Prelude.{◌≡◌};
ghost use Rattle.bringup.specs.Modes.{mode_chosen, mode_number};

use crate::features::{EVENT_IDX, RING_PACKED, has_all};

#[derive(Clone, Copy, PartialEq, Eq, Debug)]
pub enum Layout {
    Split = 0,
    Packed = 2,
}

#[derive(Clone, Copy, PartialEq, Eq, Debug)]
pub struct Mode {
    pub layout: Layout,
    // each side says at which position it wants to be notified, rather than by a flag
    pub events: bool,
}

impl Mode {
    pub(crate) fn of(features: u64) -> Mode
        ensures by_the_rule { result ≡ mode_chosen features }
    {
        Mode {
            layout: if has_all(features, RING_PACKED) {
                Layout::Packed
            } else {
                Layout::Split
            },
            events: has_all(features, EVENT_IDX),
        }
    }

    // The mode as a region's header has it: a method and no `From`, since its name says which number.
    pub fn number(self) -> u16
        ensures documented_number { result ≡ mode_number self }
    {
        self.layout as u16 + u16::from(self.events)
    }
}
