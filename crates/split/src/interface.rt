// The queue interface, call by call.
ghost use Rattle.split.specs.State.{split_sound, split_ops, split_laws};

use crate::moves::judge;
use crate::state::{Split, State};
use entries::{Entry, Refusal};
use queue::{Finished, Position, Queue, Side, Stage};

#[tactic(auto, unfolding(split_ring::specs::Lent::serves))]
impl<'a> Queue for Split<'a> {
    ghost sound = { split_sound };

    ghost ops = { split_ops };

    ghost laws = { split_laws };

    fn publish(&mut self, entry: Entry) -> Result<(), Refusal> {
        match &mut self.state {
            State::Live(serving) => serving.publish(entry),
            State::Idle(_) => judge(entry.is_legal(), 0, entry.count),
        }
    }

    fn take(&mut self) -> Option<Entry> {
        match &mut self.state {
            State::Live(serving) => serving.take(),
            State::Idle(_) => None,
        }
    }

    fn finish(&mut self, written: u32) -> Result<(), Refusal> {
        match &mut self.state {
            State::Live(serving) => serving.finish(written),
            State::Idle(_) => Err(Refusal::NothingHeld),
        }
    }

    fn collect(&mut self) -> Option<Finished> {
        match &mut self.state {
            State::Live(serving) => serving.collect(),
            State::Idle(_) => None,
        }
    }

    fn arm(&mut self, side: Side) {
        if let State::Live(serving) = &mut self.state {
            serving.arm(side);
        }
    }

    fn hush(&mut self, side: Side) {
        if let State::Live(serving) = &mut self.state {
            serving.hush(side);
        }
    }

    fn wants_wake_up(&self, receiver: Side, mark: u32) -> Result<bool, Refusal> {
        if mark >= self.modulus() {
            return Err(Refusal::BadMark);
        }
        match &self.state {
            State::Live(serving) => Ok(serving.wants_wake_up(receiver, mark)),
            State::Idle(_) => Ok(false),
        }
    }

    fn capacity(&self) -> u32 {
        match &self.state {
            State::Live(serving) => serving.capacity(),
            State::Idle(_) => 0,
        }
    }

    fn modulus(&self) -> u32 {
        match &self.state {
            State::Live(serving) => serving.modulus(),
            State::Idle(_) => 1,
        }
    }

    fn position(&self, which: Position) -> u32 {
        match &self.state {
            State::Live(serving) => u32::from(serving.cursor(which).position),
            State::Idle(_) => 0,
        }
    }

    fn entries(&self, stage: Stage) -> u32 {
        match &self.state {
            State::Live(serving) => u32::from(serving.length(stage).position),
            State::Idle(_) => 0,
        }
    }

    fn segments(&self, stage: Stage) -> u32 {
        match &self.state {
            State::Live(serving) => u32::from(serving.length(stage).descriptor),
            State::Idle(_) => 0,
        }
    }
}
