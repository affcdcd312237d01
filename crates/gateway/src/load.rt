//! Whether a few packets gain by ICVs that are computed side by side.

use esp::PACKETS_LEAST;

// Eight lanes take as long as five thirds of one packet alone, at x86-64-v3.
const LANE_THIRDS: usize = 5;

// What is done beside the hashing takes as long as so many blocks of SHA-256, or somewhat less.
const SETUP_BLOCKS: usize = 3;

/// What the ICVs of some packets take, in blocks of SHA-256.
#[derive(Clone, Copy)]
pub struct Load {
    packets: usize,
    all: usize,
    most: usize,
}

impl Load {
    /// That of no packets.
    pub fn none() -> Load {
        Load {
            packets: 0,
            all: 0,
            most: 0,
        }
    }

    /// Counts a packet of so many octets too.
    pub fn add(&mut self, octets: usize) {
        // The outer hash takes one block, and the end of the inner one part of another.
        let blocks = octets / 64 + 2;
        self.packets = self.packets.saturating_add(1);
        self.all = self.all.saturating_add(blocks);
        self.most = blocks.max(self.most);
    }

    /// Whether lanes may gain, where lists begin them at `least` packets. From six packets on `esp` alone
    /// judges. Of fewer, all together, less the setup, must take as long one by one as the longest does in
    /// lanes. So two short ones go one by one.
    pub fn gains(&self, least: usize) -> bool {
        self.packets >= least
            && (self.packets >= PACKETS_LEAST
                || self.all.saturating_sub(SETUP_BLOCKS).saturating_mul(3)
                    >= self.most.saturating_mul(LANE_THIRDS))
    }
}
