//! Numbers that look as if they were drawn.

#[derive(Drop)]
pub(crate) struct Chance {
    pub(crate) state: u64,
}

impl Chance {
    pub(crate) fn below(&mut self, count: u64) -> u64 {
        self.state = self
            .state
            .wrapping_mul(6_364_136_223_846_793_005)
            .wrapping_add(1_442_695_040_888_963_407);
        (self.state >> 33).checked_rem(count).unwrap_or(0)
    }

    pub(crate) fn one_of(&mut self, bytes: &[u8]) -> u8 {
        let at = self.below(bytes.len() as u64);
        bytes.get(at as usize).copied().unwrap_or(b'0')
    }
}
