//! A generator of numbers that look random.
ghost use Rattle.std.specs.Prelude.{◌<◌};

/// A linear congruential generator with the multiplier and the increment of Knuth's MMIX.
#[derive(Drop)]
pub struct Random {
    state: u64,
}

impl Random {
    /// The generator that begins with this number.
    pub fn new(state: u64) -> Random {
        Random { state }
    }

    /// The next number, from 0 on and below a bound, of at most 31 bits; 0 where the bound is 0.
    pub fn below(&mut self, bound: usize) -> usize
        ensures { 0 < bound → result < bound }
    {
        self.state = self
            .state
            .wrapping_mul(6_364_136_223_846_793_005)
            .wrapping_add(1_442_695_040_888_963_407);
        (self.state >> 33) as usize % bound.max(1)
    }

    /// The number itself, one less or one more, by the next draw; 0 where one less than 0 is drawn.
    pub fn near(&mut self, number: usize) -> usize {
        number.saturating_add(self.below(3)).saturating_sub(1)
    }
}
