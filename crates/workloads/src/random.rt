/// Numbers by chance: the generator SplitMix64 of Steele, Lea and Flood. A seed gives the same numbers
/// each time.
#[derive(Clone, Copy)]
pub(crate) struct Random {
    state: u64,
}

impl Random {
    pub(crate) fn new(seed: u64) -> Random {
        Random { state: seed }
    }

    pub(crate) fn next(&mut self) -> u64 {
        self.state = self.state.wrapping_add(0x9e37_79b9_7f4a_7c15);
        let mut mixed = self.state;
        mixed = (mixed ^ (mixed >> 30)).wrapping_mul(0xbf58_476d_1ce4_e5b9);
        mixed = (mixed ^ (mixed >> 27)).wrapping_mul(0x94d0_49bb_1331_11eb);
        mixed ^ (mixed >> 31)
    }

    /// A number below this one, which is not 0.
    pub(crate) fn below(&mut self, end: u32) -> u64 {
        (self.next() >> 32) % u64::from(end.max(1))
    }

    /// A digit as it is written.
    pub(crate) fn digit(&mut self) -> u8 {
        b'0' + (self.next() % 10) as u8
    }

    /// A digit above 0.
    pub(crate) fn first_digit(&mut self) -> u8 {
        b'1' + (self.next() % 9) as u8
    }

    /// Another digit than this one.
    pub(crate) fn other_digit(&mut self, digit: u8) -> u8 {
        let step = 1 + (self.next() % 9) as u8;
        b'0' + (digit & 15).wrapping_add(step) % 10
    }
}
