//! Random numbers, the same for the same seed.

/// Random numbers by a linear congruence modulo 2^64, of which the upper half is drawn.
#[derive(Drop)]
pub struct Chance {
    state: u64,
}

impl Chance {
    /// The numbers of a seed. Of two seeds that follow one another the first numbers are unlike, too.
    pub fn new(seed: u32) -> Chance {
        let mut chance = Chance {
            state: u64::from(seed).wrapping_mul(0x9e37_79b9_7f4a_7c15),
        };
        chance.draw();
        chance.draw();
        chance
    }

    /// A number below 2^32.
    fn draw(&mut self) -> u64 {
        self.state = self
            .state
            .wrapping_mul(6_364_136_223_846_793_005)
            .wrapping_add(1_442_695_040_888_963_407);
        self.state >> 32
    }

    /// A number below the bound, or 0 if that is 0.
    pub fn below(&mut self, bound: usize) -> usize {
        (self.draw() % (bound as u64).max(1)) as usize
    }

    /// A number below the bound, or 0 if that is 0.
    pub fn small(&mut self, bound: u16) -> u16 {
        (self.draw() % u64::from(bound.max(1))) as u16
    }

    /// Whether what happens once in so many times happens now.
    pub fn once_in(&mut self, times: usize) -> bool {
        self.below(times) == 0
    }
}
