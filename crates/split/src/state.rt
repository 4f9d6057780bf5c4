// What a split queue is: a region that serves it with what it remembers besides, or bytes that no queue can be in.
use crate::lent::Lent;
use bringup::LARGEST_CAPACITY;
use split_ring::{Chain, Cursor};

// By the first descriptor of a chain: at most this many.
pub(crate) const MOST: usize = LARGEST_CAPACITY as usize;

#[derive(Drop)]
pub(crate) struct Serving<'a> {
    pub(crate) region: Lent<'a>,
    // whether a side names an event or sets its flags
    pub(crate) events: bool,
    pub(crate) published: Cursor,
    pub(crate) taken: Cursor,
    pub(crate) finished: Cursor,
    pub(crate) collected: Cursor,
    // by the first descriptor of a chain; as long as the largest capacity needs, since nothing here allocates
    pub(crate) chains: [Chain; MOST],
}

// Two states of a queue and no `Result`: an idle queue is no failure that anyone handles, and goes on answering.
#[derive(Drop)]
pub(crate) enum State<'a> {
    Live(Serving<'a>),
    // where the region or the bring-up does not serve: a queue of capacity 0, which keeps the bytes to give them back
    Idle(&'a mut [u8]),
}

#[derive(Drop)]
pub struct Split<'a> {
    pub(crate) state: State<'a>,
}
