// Packet numbers, round the circle of 2^24.
#![tactic(auto)]

ghost use Rattle.std.specs.Prelude.{◌≡◌};
ghost use Rattle.psn.specs.Psn.{after, distance};

// How many packet numbers there are. It divides 2^32, so a sum or difference that wraps there is the same number of the circle.
pub const TURN: u32 = 16_777_216;

// At this distance or more, the other number is behind.
pub const HALF: u32 = 8_388_608;

// A packet number. It is below TURN in every record and reply; a caller may hold any 32 bits.
#[derive(Clone, Copy, PartialEq, Eq, Debug)]
pub struct Psn(pub u32);

impl Psn {
    // The number n places after this one.
    #[tactic(auto, unfolding(crate::specs::Psn::after))]
    pub fn after(self, n: u32) -> Psn
        ensures { result.0 ≡ after self.0 n }
    {
        Psn(self.0.wrapping_add(n) % TURN)
    }

    // How far the other number lies ahead of this one.
    #[tactic(auto, unfolding(crate::specs::Psn::distance))]
    pub fn distance(self, to: Psn) -> u32
        ensures { result ≡ distance self.0 to.0 }
    {
        to.0.wrapping_sub(self.0) % TURN
    }
}
