//! How runs end.

/// How a run ended.
#[derive(Clone, Copy)]
pub struct Outcome {
    pub status: u8,
    /// Whether no other run should follow, since the output failed.
    pub is_last: bool,
}

impl Outcome {
    /// The outcome of a run, or of one that could not begin.
    pub fn of(run: Result<Outcome, u8>) -> Outcome {
        match run {
            Ok(ended) => ended,
            Err(status) => Outcome {
                status,
                is_last: false,
            },
        }
    }
}

/// The status of a run, or of one that could not begin.
pub fn ended(status: Result<u8, u8>) -> u8 {
    match status {
        Ok(status) => status,
        Err(status) => status,
    }
}
