// The states of bring-up: plain values, each moved into the next state, so that none is used twice.
use crate::modes::Mode;

// The device was reset, and offers these features.
#[derive(PartialEq, Eq, Debug, Drop)]
pub struct Reset {
    pub(crate) offered: u64,
}

// The driver has seen the device and can drive it.
#[derive(PartialEq, Eq, Debug, Drop)]
pub struct Known {
    pub(crate) offered: u64,
}

// The features are agreed on.
#[derive(PartialEq, Eq, Debug, Drop)]
pub struct Agreed {
    pub(crate) features: u64,
}

// The queue has a legal capacity. Whoever makes the queue uses this up. That it is legal is no ghost field: what `size` gives is
// stated as a plain record, which would have to carry the proof; the lemmas `made_split` and `made_packed` say it instead.
#[derive(PartialEq, Eq, Debug, Drop)]
pub struct Sized {
    pub(crate) mode: Mode,
    pub(crate) capacity: u16,
}

// The driver is ready, and its queue is made: plain values, which lead nowhere and may be copied.
#[derive(Clone, Copy, PartialEq, Eq, Debug)]
pub struct DriverOk {
    pub mode: Mode,
    pub capacity: u16,
}
