// Which cursors stand for a position and for a stage.
ghost use Rattle.std.specs.Prelude.{◌≡◌};
ghost use Rattle.split_ring.specs.Ring.{cursor_in, ends, entries_in, segments_in};
ghost use Rattle.split.specs.State.{ring_of};

use crate::state::Serving;
use queue::{Position, Stage};
use split_ring::Cursor;

impl Serving<'_> {
    pub(crate) fn cursor(&self, which: Position) -> Cursor
        ensures that_move { result ≡ cursor_in (ring_of self.now) which }
    {
        match which {
            Position::Published => self.published,
            Position::Taken => self.taken,
            Position::Finished => self.finished,
            Position::Collected => self.collected,
        }
    }

    // The moves that a stage lies between: the one out of it, and the one into it.
    pub(crate) fn ends(&self, stage: Stage) -> (Cursor, Cursor)
        ensures out_of_it_and_into_it { result ≡ ends (ring_of self.now) stage }
    {
        match stage {
            Stage::Out => (self.taken, self.published),
            Stage::Held => (self.finished, self.taken),
            Stage::Back => (self.collected, self.finished),
        }
    }

    // How far apart these are: as many positions as the stage has entries, and as many descriptors as it has segments.
    pub(crate) fn length(&self, stage: Stage) -> Cursor
        ensures entries_and_segments { result ≡ record { position = entries_in (ring_of self.now) stage; descriptor = segments_in (ring_of self.now) stage } }
    {
        let (from, to) = self.ends(stage);
        to.since(from)
    }
}
