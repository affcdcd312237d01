//! Numbers that look random, from a seed (a linear congruential generator).

/// What the next number is made of.
#[derive(Drop)]
pub struct Random {
    state: u64,
}

impl Random {
    pub fn from_seed(state: u64) -> Random {
        Random { state }
    }

    /// One below this limit.
    pub fn below(&mut self, limit: u64) -> u64 {
        self.state = self
            .state
            .wrapping_mul(6_364_136_223_846_793_005)
            .wrapping_add(1_442_695_040_888_963_407);
        (self.state >> 33).checked_rem(limit).unwrap_or(0)
    }

    /// One below this limit, or 0 where that has more than 32 bits.
    pub fn small(&mut self, limit: u64) -> u32 {
        u32::try_from(self.below(limit)).unwrap_or(0)
    }

    pub fn octet(&mut self) -> u8 {
        let [octet, ..] = self.below(256).to_le_bytes();
        octet
    }
}
