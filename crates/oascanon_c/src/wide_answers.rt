//! What preparing a file answers, and how C is told.
ghost use Rattle.std.specs.Prelude.{◌≡◌};
ghost use Rattle.oascanon_c.specs.WideOutcomes.{at_of, in_block_of, left_out_of, none_left_out, preparation_of, wide_outcome_of, within_of};

use crate::answers::{Answer, NOT_LIMITS, Outcome};
use oas_prepare::{Place, Rejection, Report};

/// The status of bits of which one names no kind of record.
const UNKNOWN_DROP: u32 = 68;

/// What preparing a file answers.
#[derive(Clone, Copy, Debug, PartialEq, Eq)]
pub enum WideAnswer {
    /// The file is prepared, its canonical file is put as this answer says, and this was left out.
    Prepared(Answer, Report),
    /// The three numbers are no limits, and nothing was read.
    NotLimits,
    /// A bit names no kind of record, and nothing was read.
    UnknownDrop,
    /// The file isn't prepared.
    Stopped(Rejection),
}

/// What C is told beside the outcome.
#[repr(C)]
#[derive(Clone, Copy, Debug, PartialEq, Eq)]
pub struct Preparation {
    /// How many properties were left out.
    pub properties: u64,
    /// How many names and strings for them.
    pub property_names: u64,
    /// How many names of layers.
    pub layer_names: u64,
    /// How many extensions.
    pub extensions: u64,
    /// How many names for them.
    pub extension_names: u64,
    /// 1 where the refused record is in a block, which is at the outcome's offset, else 0.
    pub in_block: u64,
    /// Then its offset in what the block inflates to, else 0.
    pub within: u64,
}

/// The offset in the file: of a record, or of the block that it is in.
fn file_offset(place: Place) -> u64
    ensures { result ≡ at_of place }
{
    match place {
        Place::File(at) => at,
        Place::Block { block, .. } => block,
    }
}

/// 1 for a place in a block, else 0.
fn block_mark(place: Place) -> u64
    ensures { result ≡ in_block_of place }
{
    match place {
        Place::File(_) => 0,
        Place::Block { .. } => 1,
    }
}

/// The offset in what a block inflates to, else 0.
fn block_offset(place: Place) -> u64
    ensures { result ≡ within_of place }
{
    match place {
        Place::File(_) => 0,
        Place::Block { within, .. } => within,
    }
}

/// What was left out of a file that is prepared.
fn left_out(report: Report) -> Preparation
    ensures { result ≡ left_out_of report }
{
    Preparation {
        properties: report.properties,
        property_names: report.property_names,
        layer_names: report.layer_names,
        extensions: report.extensions,
        extension_names: report.extension_names,
        in_block: 0,
        within: 0,
    }
}

/// Nothing is left out of a file that isn't; a place may be in a block.
fn none_left_out(in_block: u64, within: u64) -> Preparation
    ensures { result ≡ none_left_out in_block within }
{
    Preparation {
        properties: 0,
        property_names: 0,
        layer_names: 0,
        extensions: 0,
        extension_names: 0,
        in_block,
        within,
    }
}

impl WideAnswer {
    /// How C is told.
    pub fn outcome(self) -> Outcome
        ensures { result ≡ wide_outcome_of self }
    {
        let (status, file, at) = match self {
            WideAnswer::Prepared(answer, _) => return answer.outcome(),
            WideAnswer::NotLimits => (NOT_LIMITS, 0, 0),
            WideAnswer::UnknownDrop => (UNKNOWN_DROP, 0, 0),
            WideAnswer::Stopped(rejection) => {
                (
                    u32::from(rejection.why.number()),
                    1,
                    file_offset(rejection.place),
                )
            }
        };
        Outcome {
            status,
            file,
            at,
            length: 0,
        }
    }

    /// What C is told beside it.
    pub fn preparation(self) -> Preparation
        ensures { result ≡ preparation_of self }
    {
        match self {
            WideAnswer::Prepared(_, report) => left_out(report),
            WideAnswer::NotLimits | WideAnswer::UnknownDrop => none_left_out(0, 0),
            WideAnswer::Stopped(rejection) => {
                none_left_out(block_mark(rejection.place), block_offset(rejection.place))
            }
        }
    }
}
