// Arming, and the look that has to follow it before a side may sleep.
ghost use Rattle.std.specs.Prelude.{◌≡◌, ◌<◌, false, Decides};
ghost use Rattle.queue.specs.Meaning.{unseen};
ghost use Rattle.queue.specs.Calls.{inbox, work_in, NoWakeUpLost};

use crate::interface::Queue;
use crate::values::{Side, Stage};

impl Side {
    // The list that a side is to see: out for the device, back for the driver.
    pub fn inbox(self) -> Stage
        ensures by_side { result ≡ inbox self }
    {
        match self {
            Side::Driver => Stage::Back,
            Side::Device => Stage::Out,
        }
    }
}

// Arms a side's watch and then looks whether there is work for it. If there is none, the side may sleep: however the other
// side goes on, once there is something to see, the wake-up question from this moment's position says yes.
#[tactic(auto, using(crate::proofs::Woken::armed_work, crate::proofs::Woken::armed_safely))]
pub fn arm_and_look<Q: Queue>(queue: &mut Q, side: Side) -> bool
    ensures answer { result ≡ work_in Q.ops queue.new side }
    ensures later_queue { queue.new ≡ Q.ops.armed queue.old side }
    ensures sees_work { Q.sound queue.old → Decides result (0 < unseen (Q.ops.means queue.new) side) }
    ensures no_wake_up_lost { Q.sound queue.old → result ≡ false → NoWakeUpLost Q.ops queue.new side }
{
    queue.arm(side);
    queue.entries(side.inbox()) > 0
}
