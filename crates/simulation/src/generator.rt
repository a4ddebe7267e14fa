//! Numbers that are drawn from a seed.

/// The generator SplitMix64: one seed gives the same numbers always.
#[derive(Clone, Copy)]
pub struct Generator {
    state: u64,
}

impl Generator {
    pub fn new(seed: u64) -> Generator {
        Generator { state: seed }
    }

    fn draw(&mut self) -> u64 {
        self.state = self.state.wrapping_add(0x9E37_79B9_7F4A_7C15);
        let z = self.state;
        let z = (z ^ (z >> 30)).wrapping_mul(0xBF58_476D_1CE4_E5B9);
        let z = (z ^ (z >> 27)).wrapping_mul(0x94D0_49BB_1331_11EB);
        z ^ (z >> 31)
    }

    /// A number below another; 0 where that is 0.
    pub fn below(&mut self, bound: u32) -> u32 {
        let drawn = self.draw();
        if bound == 0 {
            return 0;
        }
        u32::try_from(drawn % u64::from(bound)).unwrap_or(0)
    }

    /// A number from one to another, both included.
    pub fn between(&mut self, least: u32, most: u32) -> u32 {
        let width = most.saturating_sub(least).saturating_add(1);
        least.saturating_add(self.below(width))
    }

    /// Whether a case comes that comes once in so many.
    pub fn is_one_in(&mut self, count: u32) -> bool {
        self.below(count) == 0
    }

    pub fn short(&mut self, least: u16, most: u16) -> u16 {
        let drawn = self.between(u32::from(least), u32::from(most));
        u16::try_from(drawn).unwrap_or(most)
    }

    pub fn byte(&mut self, least: u8, most: u8) -> u8 {
        let drawn = self.between(u32::from(least), u32::from(most));
        u8::try_from(drawn).unwrap_or(most)
    }
}
