// A call told as a value, so that whole lists of calls can be spoken of and run from tables. A closure for each step would not
// do: the law is over lists of calls as values, and a proof cannot look into what a closure would call.
ghost use Rattle.std.specs.Prelude.{◌≡◌, Some};
ghost use Rattle.queue.specs.Calls.{outcome, after, FirstInFirstOut};
ghost use Rattle.queue.specs.Texts.{outcome_text};

use crate::interface::Queue;
use crate::values::{Finished, Side};
use entries::{Entry, Refusal};
use std::fmt;

#[derive(Clone, Copy, PartialEq, Eq, Debug)]
pub enum Call {
    Publish(Entry),
    Take,
    Finish(u32),
    Collect,
    Arm(Side),
    Hush(Side),
}

// What a call answered.
#[derive(Clone, Copy, PartialEq, Eq, Debug)]
pub enum Outcome {
    Published(Result<(), Refusal>),
    Took(Option<Entry>),
    Ended(Result<(), Refusal>),
    Collected(Option<Finished>),
    Watching,
}

impl fmt::Display for Outcome {
    ghost output = { λ o. Some (outcome_text o) };

    fn fmt<W: fmt::Write>(&self, f: &mut fmt::Formatter<W>) -> fmt::Result {
        match self {
            Outcome::Published(Ok(())) => write!(f, "publish"),
            Outcome::Published(Err(refusal)) => write!(f, "publish: {refusal}"),
            Outcome::Took(Some(entry)) => {
                write!(f, "take: tag {}, {} segments", entry.tag, entry.count)
            }
            Outcome::Took(None) => write!(f, "take: nothing"),
            Outcome::Ended(Ok(())) => write!(f, "finish"),
            Outcome::Ended(Err(refusal)) => write!(f, "finish: {refusal}"),
            Outcome::Collected(Some(finished)) => {
                write!(
                    f,
                    "collect: tag {}, written {}",
                    finished.tag, finished.written
                )
            }
            Outcome::Collected(None) => write!(f, "collect: nothing"),
            Outcome::Watching => write!(f, "watching"),
        }
    }
}

// Makes the call. Whatever list of calls is made on a queue, what was published is taken and collected first in, first out.
pub fn perform<Q: Queue>(queue: &mut Q, call: Call) -> Outcome
    ensures answer { result ≡ outcome Q.ops queue.old call }
    ensures later_queue { queue.new ≡ after Q.ops queue.old call }
    ensures first_in_first_out { Q.sound queue.old → FirstInFirstOut Q.ops queue.old }
{
    match call {
        Call::Publish(entry) => Outcome::Published(queue.publish(entry)),
        Call::Take => Outcome::Took(queue.take()),
        Call::Finish(written) => Outcome::Ended(queue.finish(written)),
        Call::Collect => Outcome::Collected(queue.collect()),
        Call::Arm(side) => {
            queue.arm(side);
            Outcome::Watching
        }
        Call::Hush(side) => {
            queue.hush(side);
            Outcome::Watching
        }
    }
}
