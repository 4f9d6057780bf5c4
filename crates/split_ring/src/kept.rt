// What is kept of a chain that the region does not hold: the tag of its entry, and how many segments it has.
#[derive(Clone, Copy, PartialEq, Eq, Debug)]
pub struct Chain {
    pub tag: u16,
    pub count: u16,
}

impl Chain {
    // Where no chain was laid yet.
    pub const NONE: Chain = Chain { tag: 0, count: 0 };
}
