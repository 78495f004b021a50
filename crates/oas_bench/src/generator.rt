//! Numbers to measure with, the same at each run.

/// Numbers in random order.
#[derive(Drop)]
pub(crate) struct Numbers {
    state: u64,
}

impl Numbers {
    pub(crate) fn new() -> Numbers {
        Numbers {
            state: 0x9e37_79b9_7f4a_7c15,
        }
    }

    /// A number of up to 64 bits.
    pub(crate) fn next(&mut self) -> u64 {
        let mut state = self.state;
        state ^= state << 13;
        state ^= state >> 7;
        state ^= state << 17;
        self.state = state;
        state
    }
}
