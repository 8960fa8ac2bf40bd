//! The draw of numbers, by a linear congruence modulo 2^64.

ghost use Rattle.std.specs.Prelude.{◌≡◌, ◌<◌};
ghost use Rattle.prl_gen.specs.Draws.{draw, next};

/// The factor of a step from a state to the next.
pub const MULTIPLIER: u64 = 6_364_136_223_846_793_005;

/// What a step from a state to the next adds.
pub const INCREMENT: u64 = 1_442_695_040_888_963_407;

/// A source of numbers: the state from which the next is drawn.
#[derive(Drop)]
pub struct Draws {
    pub state: u64,
}

impl Draws {
    /// Draws a number below `bound`, from the upper 31 bits of the next state.
    pub fn draw(&mut self, bound: u64) -> u64
        requires { 0 < bound }
        ensures number { result ≡ draw bound self.old.state }
        ensures below { result < bound }
        ensures state { self.new.state ≡ next self.old.state }
    {
        self.step();
        (self.state >> 33) % bound
    }

    #[tactic(auto, using(crate::proofs::Steps::wrapped_sum), unfolding(crate::specs::Draws::next))]
    fn step(&mut self)
        ensures { self.new.state ≡ next self.old.state }
    {
        self.state = self.state.wrapping_mul(MULTIPLIER).wrapping_add(INCREMENT);
    }
}
