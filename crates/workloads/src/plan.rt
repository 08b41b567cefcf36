/// How a job is run: its seed, how many rounds, and whether its tiles are small.
#[derive(Clone, Copy)]
pub(crate) struct Plan {
    pub(crate) seed: u64,
    pub(crate) rounds: u32,
    pub(crate) is_small: bool,
}

impl Plan {
    /// The bytes of a tile that has so many thousand where tiles are not small.
    pub(crate) fn size(&self, thousands: u32) -> u32 {
        if self.is_small {
            20_000
        } else {
            thousands.saturating_mul(1_000)
        }
    }
}
