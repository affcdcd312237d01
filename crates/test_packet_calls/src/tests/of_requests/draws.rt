//! Numbers that look mixed.

/// A linear congruential generator, with the factors of Knuth's MMIX.
#[derive(Drop)]
pub struct Draws {
    state: u64,
}

impl Draws {
    pub fn new(seed: u64) -> Draws {
        Draws { state: seed }
    }

    /// A number below an end; 0 where the end is 0.
    pub fn below(&mut self, end: u32) -> u32 {
        self.state = self
            .state
            .wrapping_mul(6_364_136_223_846_793_005)
            .wrapping_add(1_442_695_040_888_963_407);
        let drawn = (self.state >> 33) as u32;
        drawn.checked_rem(end).unwrap_or(0)
    }
}
