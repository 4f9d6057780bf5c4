// The steps from state to state. A refusal hands back the very state that was given.
ghost use Rattle.std.specs.Prelude.{◌≡◌, ◌+◌, ◌*◌, is_ok, Decides};
ghost use Rattle.bringup.specs.Capacities.{Fitting};
ghost use Rattle.bringup.specs.Features.{bit, packed_bit, event_bit, Agreeable, mode_of};
ghost use Rattle.bringup.specs.Modes.{mode_chosen, mode_number};
ghost use Rattle.bringup.specs.Steps.{starting, knowing, agreeing, sizing, spending, bringing_up};

use crate::capacities::fitting;
use crate::features::is_agreeable;
use crate::modes::Mode;
use crate::states::{Agreed, DriverOk, Known, Reset, Sized};
use entries::Refusal;

impl Reset {
    pub fn new(offered: u64) -> Reset
        ensures keeps_the_offer { result ≡ starting offered }
    {
        Reset { offered }
    }

    pub fn acknowledge(self) -> Known
        ensures keeps_the_offer { result ≡ knowing self }
    {
        Known {
            offered: self.offered,
        }
    }
}

impl Known {
    #[tactic(auto, using(crate::proofs::Agreeing::agreeable_decides))]
    pub fn agree(self, wanted: u64) -> Result<Agreed, (Refusal, Known)>
        ensures agreed_or_handed_back { result ≡ agreeing self wanted }
        ensures exactly_when_agreeable { Decides (is_ok result) (Agreeable self.offered wanted) }
    {
        if is_agreeable(self.offered, wanted) {
            Ok(Agreed { features: wanted })
        } else {
            Err((Refusal::Features, self))
        }
    }
}

impl Agreed {
    #[tactic(auto, using(crate::proofs::Agreeing::number_chosen, crate::proofs::Agreeing::mode_bits))]
    pub fn mode(&self) -> Mode
        ensures as_chosen { result ≡ mode_chosen self.now.features }
        ensures by_the_rule { mode_number result ≡ mode_of self.now.features }
        ensures two_bits_as_a_number { mode_number result ≡ 2 * bit packed_bit self.now.features + bit event_bit self.now.features }
    {
        Mode::of(self.features)
    }

    #[tactic(auto, using(crate::proofs::Sizing::fitting_decides))]
    pub fn size(self, capacity: u32) -> Result<Sized, (Refusal, Agreed)>
        ensures sized_or_handed_back { result ≡ sizing self capacity }
        ensures exactly_when_fitting { Decides (is_ok result) (Fitting self.features capacity) }
    {
        match fitting(self.features, capacity) {
            Some(capacity) => Ok(Sized {
                mode: self.mode(),
                capacity,
            }),
            None => Err((Refusal::Capacity, self)),
        }
    }
}

impl Sized {
    pub fn mode(&self) -> Mode
        ensures as_agreed { result ≡ self.now.mode }
    {
        self.mode
    }

    pub fn capacity(&self) -> u16
        ensures as_sized { result ≡ self.now.capacity }
    {
        self.capacity
    }

    pub fn spend(self) -> DriverOk
        ensures keeps_the_numbers { result ≡ spending self }
    {
        let Sized { mode, capacity } = self;
        DriverOk { mode, capacity }
    }
}

// All steps at once: for whoever has no use for a state that is handed back.
pub fn bring_up(offered: u64, wanted: u64, capacity: u32) -> Result<Sized, Refusal>
    ensures step_by_step { result ≡ bringing_up offered wanted capacity }
{
    let known = Reset::new(offered).acknowledge();
    let agreed = known.agree(wanted).map_err(|(refusal, _)| refusal)?;
    agreed.size(capacity).map_err(|(refusal, _)| refusal)
}
