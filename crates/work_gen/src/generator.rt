//! The generator of numbers from which everything is drawn.
ghost use Rattle.std.specs.Prelude.{◌≡◌, ◌<◌};
ghost use Rattle.work_gen.specs.Draws.{draw};

// The factor and the summand with which each number gives the next: those of Knuth's MMIX.
const FACTOR: u64 = 6_364_136_223_846_793_005;

const SUMMAND: u64 = 1_442_695_040_888_963_407;

/// The number of the last draw.
#[derive(Clone, Copy)]
pub(crate) struct Generator {
    pub(crate) x: u64,
}

impl Generator {
    /// Draws a number below `bound`.
    #[tactic(auto, unfolding(crate::specs::Draws::draw))]
    pub(crate) fn draw(&mut self, bound: u32) -> u32
        requires { 0 < bound }
        ensures value { result ≡ (draw bound self.old.x).value }
        ensures next { self.new.x ≡ (draw bound self.old.x).x }
        ensures small { result < bound }
    {
        self.x = self.x.wrapping_mul(FACTOR).wrapping_add(SUMMAND);
        ((self.x >> 33) % u64::from(bound)) as u32
    }
}
