// A region of bytes, and the capacity of the queue in it. Any bytes will do: what does not lie within them is read as 0 and is not
// written.
ghost use Rattle.std.specs.Prelude.{◌≡◌, length};
ghost use Rattle.words.specs.Numbers.{get, put};

// What is read through.
#[derive(Clone, Copy)]
pub struct RegionView<'a> {
    pub bytes: &'a [u8],
    pub capacity: u16,
}

// What is written through.
#[derive(Drop)]
pub struct Region<'a> {
    pub bytes: &'a mut [u8],
    pub capacity: u16,
}

impl RegionView<'_> {
    // The word of two bytes at a place, such as a suppression word.
    pub fn word(self, at: usize) -> u16
        ensures as_it_lies { result ≡ get 2 self.entry.bytes.now at }
    {
        words::get(self.bytes, at)
    }
}

// Each write says that there are as many bytes as before: whoever keeps a region's length rests on that alone.
impl Region<'_> {
    ghost use Rattle.split_ring.specs.Lent.{written};

    pub fn view(&self) -> RegionView<'_>
        ensures same_bytes { result.bytes.now ≡ self.now.bytes.now }
        ensures same_capacity { result.capacity ≡ self.now.capacity }
    {
        RegionView {
            bytes: &*self.bytes,
            capacity: self.capacity,
        }
    }

    pub fn put_word(&mut self, at: usize, word: u16)
        ensures later_bytes { self.new ≡ written self.old (put 2 self.old.bytes.now at word) }
        ensures as_many_bytes { length self.new.bytes.now ≡ length self.old.bytes.now }
    {
        words::put(self.bytes, at, word);
    }
}
