// The stretch from one position up to another, which it does not hold itself.
ghost use Rattle.std.specs.Prelude.{◌≡◌, ℕ, ◌<◌, ◌≤◌, ◌&&◌, nat_lt};
ghost use Rattle.positions.specs.Stretch.{ahead, stretch, in_stretch};
ghost use Rattle.positions.specs.Passed.{TellsPassed};

// Positions count up and wrap at the modulus.
#[derive(Clone, Copy, PartialEq, Eq, Debug)]
pub struct Stretch {
    pub modulus: u32,
    pub from: u32,
    pub to: u32,
}

impl Stretch {
    // Whether the stretch holds `event`. Numbers that are no positions lie in no stretch.
    #[tactic(auto, using(crate::proofs::Passed::passed_told))]
    pub fn holds(self, event: u32) -> bool
        ensures by_the_rule { result ≡ in_stretch self.modulus self.from self.to event }
        ensures exactly_the_positions_passed { TellsPassed self.modulus self.from self.to event result }
    {
        self.is_of_positions(event) && self.passes(event)
    }

    fn is_of_positions(self, event: u32) -> bool
        ensures all_below_the_modulus { result ≡ (nat_lt self.from self.modulus && (nat_lt self.to self.modulus && nat_lt event self.modulus)) }
    {
        self.from < self.modulus && self.to < self.modulus && event < self.modulus
    }

    fn passes(self, event: u32) -> bool
        requires from_a_position { self.from < self.modulus }
        requires over_a_position { event < self.modulus }
        ensures nearer_to_the_end { result ≡ stretch self.modulus self.from self.to event }
    {
        self.left_at(u64::from(event) + 1) < self.left_at(u64::from(self.from))
    }

    // How far the end lies past `at`, which may be the modulus itself: the number after the last position.
    fn left_at(self, at: u64) -> u64
        requires at_most_the_modulus { at ≤ self.modulus }
        requires some_positions { 0 < self.modulus }
        ensures steps_ahead { result ≡ ahead self.modulus at self.to }
    {
        let modulus = u64::from(self.modulus);
        (u64::from(self.to) + modulus - at) % modulus
    }
}
