// What the types already say, where a law over entries has to be told. Nothing runs.
ghost use Rattle.entries.specs.Typed.{Typed, TypedSegment};

use crate::shapes::{Entry, Segment};

impl Segment {
    fn typed(self)
        ensures numbers_fit { TypedSegment self }
    {}
}

impl Entry {
    pub fn typed(self)
        ensures numbers_fit { Typed self }
    {
        let [a, b, c] = self.segments;
        a.typed();
        b.typed();
        c.typed();
    }
}
