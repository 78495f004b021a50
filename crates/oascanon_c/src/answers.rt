//! What a call answers, and how C is told.
ghost use Rattle.std.specs.Prelude.{◌≡◌};
ghost use Rattle.oascanon_c.specs.Outcomes.{answer_by_lines, outcome_of};

use oas_prepare::{Refusal, Which};

/// The status of an answer that is yes, or of an output that is whole.
const DONE: u32 = 0;

/// The status of an answer that is no.
const NO: u32 = 64;

/// The status of an output that is longer than the room for it.
const TOO_SMALL: u32 = 65;

/// The status of three numbers that are no limits.
pub(crate) const NOT_LIMITS: u32 = 66;

/// What a call answers.
#[derive(Clone, Copy, Debug, PartialEq, Eq)]
pub enum Answer {
    /// It is done, and its output has so many bytes; or the answer is yes, and there is no output.
    Done(u64),
    /// The answer is no, and what is said of it has so many bytes: none, but where it is what differs.
    No(u64),
    /// The output has so many bytes, and the room for it fewer.
    TooSmall(u64),
    /// The three numbers are no limits, and nothing was read.
    NotLimits,
    /// This file was refused.
    Refused(Which, Refusal),
}

/// What C is told of an answer.
#[repr(C)]
#[derive(Clone, Copy, Debug, PartialEq, Eq)]
pub struct Outcome {
    /// 0 where it is done or the answer is yes, the number of a refusal's reason, or one of the numbers from 64 on.
    pub status: u32,
    /// Which file was refused: 1, of two 1 or 2; else 0.
    pub file: u32,
    /// Where it was refused, else 0.
    pub at: u64,
    /// How many bytes the output has, else 0.
    pub length: u64,
}

impl Answer {
    /// What is said of lines of what differs that are put: yes where there are none, and no where there are.
    pub(crate) fn by_lines(self) -> Answer
        ensures { result ≡ answer_by_lines self }
    {
        match self {
            Answer::Done(0) => Answer::Done(0),
            Answer::Done(length) => Answer::No(length),
            other => other,
        }
    }

    /// How C is told.
    pub fn outcome(self) -> Outcome
        ensures { result ≡ outcome_of self }
    {
        let (status, file, at, length) = match self {
            Answer::Done(length) => (DONE, 0, 0, length),
            Answer::No(length) => (NO, 0, 0, length),
            Answer::TooSmall(length) => (TOO_SMALL, 0, 0, length),
            Answer::NotLimits => (NOT_LIMITS, 0, 0, 0),
            Answer::Refused(Which::First, refusal) => {
                (u32::from(refusal.why.number()), 1, refusal.at, 0)
            }
            Answer::Refused(Which::Second, refusal) => {
                (u32::from(refusal.why.number()), 2, refusal.at, 0)
            }
        };
        Outcome {
            status,
            file,
            at,
            length,
        }
    }
}
