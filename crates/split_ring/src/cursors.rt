// How far one of the four moves of an entry has come.
ghost use Rattle.std.specs.Prelude.{◌≡◌};
ghost use Rattle.split_ring.specs.Cursors.{moved, since};

// The position of the next entry, and the descriptor at which its chain starts; both count on and wrap at 65,536, which the
// capacity divides, so that slots and descriptors are their remainders by the capacity.
#[derive(Clone, Copy, PartialEq, Eq, Debug)]
pub struct Cursor {
    pub position: u16,
    pub descriptor: u16,
}

impl Cursor {
    pub const START: Cursor = Cursor {
        position: 0,
        descriptor: 0,
    };

    // Past one entry of `count` segments.
    pub fn past(self, count: u16) -> Cursor
        ensures one_entry_on { result ≡ moved self count }
    {
        Cursor {
            position: self.position.wrapping_add(1),
            descriptor: self.descriptor.wrapping_add(count),
        }
    }

    // How far this one is past `earlier`: so many entries, and so many segments.
    pub fn since(self, earlier: Cursor) -> Cursor
        ensures steps_ahead { result ≡ since earlier self }
    {
        Cursor {
            position: self.position.wrapping_sub(earlier.position),
            descriptor: self.descriptor.wrapping_sub(earlier.descriptor),
        }
    }
}
