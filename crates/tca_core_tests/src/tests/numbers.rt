//! Numbers that follow one another by a fixed rule.
#[derive(Drop)]
pub(super) struct Numbers {
    pub(super) state: u64,
}

impl Numbers {
    // The next one, below a bound.
    pub(super) fn below(&mut self, bound: u32) -> u32 {
        self.state = self
            .state
            .wrapping_mul(6_364_136_223_846_793_005)
            .wrapping_add(1_442_695_040_888_963_407);
        let high = (self.state >> 33) as u32;
        if bound == 0 { 0 } else { high % bound }
    }
}
