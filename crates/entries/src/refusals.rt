// Why a call refuses. Where several fit, the smallest number is given.
ghost use Rattle.std.specs.Prelude.{◌≡◌, ◌++◌, Some, codes};
ghost use Rattle.std.specs.Fmt.{decimal};
ghost use Rattle.entries.specs.Refusals.{number};

use std::error::Error;
use std::fmt;

#[derive(Clone, Copy, PartialEq, Eq, Debug)]
pub enum Refusal {
    // features that are not offered, not known here, or that lack VERSION_1
    Features = 1,
    // a capacity that the layout does not have
    Capacity = 2,
    // the queue has no room for a whole group of the class's longest chains
    GroupSize = 3,
    // the bytes lent as a cell are not a cell's
    CellSize = 4,
    // the store is smaller than its class needs, or larger than 2^32 bytes
    StoreSize = 5,
    // a request that its class does not carry
    BadRequest = 6,
    // an entry that is not legal, or a tag that has no cell
    BadEntry = 8,
    // a queue that is not idle where one was asked for
    QueueInUse = 9,
    // a mark that is not a position
    BadMark = 10,
    // an entry with more segments than the queue has free
    NoRoom = 22,
    // nothing is held that could be finished
    NothingHeld = 23,
}

impl Refusal {
    // A method and no `From`: it gives the number that the documents name, and its name says so.
    pub fn number(self) -> u8
        ensures documented_number { result ≡ number self }
    {
        self as u8
    }
}

// As the programs print it.
impl fmt::Display for Refusal {
    ghost output = { λ r. Some (codes "refused " ++ decimal (number r)) };

    fn fmt<W: fmt::Write>(&self, f: &mut fmt::Formatter<W>) -> fmt::Result {
        write!(f, "refused {}", self.number())
    }
}

impl Error for Refusal {}
