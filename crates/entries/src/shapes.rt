// The values that travel from the driver to the device.

// Tags go from 0 to this one: as many as there are cells.
pub const LAST_TAG: u16 = 15;

// A stretch of memory: where it starts, how long it is, and whether the device may write it.
#[derive(Clone, Copy, PartialEq, Eq, Debug)]
pub struct Segment {
    pub start: u64,
    pub length: u32,
    pub writable: bool,
}

impl Segment {
    // What a place of an entry holds that no segment uses.
    pub const UNUSED: Segment = Segment {
        start: 0,
        length: 0,
        writable: false,
    };
}

// A tag and a chain of one to three segments, the read-only ones first. The places from `count` on are unused.
// The count stands beside the places: an entry is what was handed over, which may state any count and is judged by it, and it
// has a fixed size, since nothing here allocates. It is written out, unused places and all: a constructor from a list of segments
// would have to say what it makes of none and of a fourth.
#[derive(Clone, Copy, PartialEq, Eq, Debug)]
pub struct Entry {
    pub tag: u16,
    pub count: usize,
    pub segments: [Segment; 3],
}
