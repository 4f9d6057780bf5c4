// What a queue is to the code above it. Each call's answer and later value are named; the laws tie the names to the meaning.
ghost use Rattle.std.specs.Prelude.{◌≡◌};
ghost use Rattle.queue.specs.Laws.{Ops, Laws};

use crate::values::{Finished, Position, Side, Stage};
use entries::{Entry, Refusal};

pub trait Queue {
    // The queues that keep their meaning: those that were made, and what the calls leave of them. It stays a fact in clauses: a type
    // that keeps it would wrap the queue and have each of the twelve calls once more.
    ghost sound: { Self → Type 0 };

    // What each call answers and leaves, for every queue, sound or not.
    ghost ops: { Ops Self };

    // For sound queues, what that means.
    ghost laws: { Laws sound ops };

    // Appends an entry to those that wait for the device.
    fn publish(&mut self, entry: Entry) -> Result<(), Refusal>
        ensures answer { result ≡ ops.publish_answer self.old entry }
        ensures later_queue { self.new ≡ ops.published self.old entry };

    // Gives the device the oldest entry that waits for it.
    fn take(&mut self) -> Option<Entry>
        ensures answer { result ≡ ops.take_answer self.old }
        ensures later_queue { self.new ≡ ops.taken self.old };

    // The device is done with the oldest entry that it holds.
    fn finish(&mut self, written: u32) -> Result<(), Refusal>
        ensures answer { result ≡ ops.finish_answer self.old }
        ensures later_queue { self.new ≡ ops.finished self.old written };

    // Gives the driver the oldest entry that is finished.
    fn collect(&mut self) -> Option<Finished>
        ensures answer { result ≡ ops.collect_answer self.old }
        ensures later_queue { self.new ≡ ops.collected self.old };

    // Asks for a wake-up at the side's own position.
    fn arm(&mut self, side: Side)
        ensures later_queue { self.new ≡ ops.armed self.old side };

    // The side is up: asks not to be woken, as far as the layout can say so.
    fn hush(&mut self, side: Side)
        ensures later_queue { self.new ≡ ops.hushed self.old side };

    // Whether the receiver wants to be woken for what has come since the mark.
    fn wants_wake_up(&self, receiver: Side, mark: u32) -> Result<bool, Refusal>
        ensures answer { result ≡ ops.wake_answer self.now receiver mark };

    fn capacity(&self) -> u32
        ensures answer { result ≡ ops.capacity self.now };

    fn modulus(&self) -> u32
        ensures answer { result ≡ ops.modulus self.now };

    fn position(&self, which: Position) -> u32
        ensures answer { result ≡ ops.position self.now which };

    // How many entries, and how many segments, a list has.
    fn entries(&self, stage: Stage) -> u32
        ensures answer { result ≡ ops.entries self.now stage };

    fn segments(&self, stage: Stage) -> u32
        ensures answer { result ≡ ops.segments self.now stage };
}
