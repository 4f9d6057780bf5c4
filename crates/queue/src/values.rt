// The values that a queue's calls take and give, besides entries.

// The two halves of a link: the driver publishes and collects, the device takes and finishes.
#[derive(Clone, Copy, PartialEq, Eq, Debug)]
pub enum Side {
    Driver,
    Device,
}

// How far each of the four moves of an entry has come.
#[derive(Clone, Copy, PartialEq, Eq, Debug)]
pub enum Position {
    Published,
    Taken,
    Finished,
    Collected,
}

// The three lists: published and not taken, taken and not finished, finished and not collected.
#[derive(Clone, Copy, PartialEq, Eq, Debug)]
pub enum Stage {
    Out,
    Held,
    Back,
}

// An entry as the driver gets it back. Its span is how many positions it took up.
#[derive(Clone, Copy, PartialEq, Eq, Debug)]
pub struct Finished {
    pub tag: u16,
    pub span: u32,
    pub count: usize,
    pub written: u32,
}
