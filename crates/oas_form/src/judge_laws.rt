//! Laws of judging a file as it is read. Each is the contract of a function that does nothing.
ghost use Rattle.oas_form.specs.Judging.{BytesGoOn, BytesJudge, FormIsOrderedBytes, IsReadAsSome, JudgeBegins, JudgeDraws, JudgeGoesOn, JudgeIsRight, JudgeOpens, JudgeRefuses, JudgeStandsFirst, JudgeStays, JudgeSteps, KeptBytes, CellIsBytes, ElementIsBytes, EndIsBytes, HeadIsBytes};

/// An accepted file is a canonical form exactly if it was judged to be one record by record, as it was read; and every
/// accepted file was read so.
pub fn judge_is_right()
    ensures right { JudgeIsRight }
    ensures read { IsReadAsSome }
{}

/// What the judgement needs of one more record: its own bytes, what it draws, and the latest name and element before it.
pub fn judge_goes_on()
    ensures begins { JudgeBegins }
    ensures goes_on { JudgeGoesOn }
    ensures steps { JudgeSteps }
    ensures stays { JudgeStays }
{}

/// What is spelled in the shortest style has the canonical bytes, and nothing else has.
pub fn shortest_bytes()
    ensures head { HeadIsBytes }
    ensures cell { CellIsBytes }
    ensures element { ElementIsBytes }
    ensures end { EndIsBytes }
{}

/// An accepted file is a canonical form exactly if all its bytes are the canonical ones of what they draw, record by record
/// and in order; and what that needs of one more record.
pub fn judged_by_bytes()
    ensures right { BytesJudge }
    ensures goes_on { BytesGoOn }
    ensures kept { KeptBytes }
{}

/// An accepted file is a canonical form exactly if its meaning is in order and its bytes are the canonical ones of that.
pub fn form_is_ordered_bytes()
    ensures { FormIsOrderedBytes }
{}

/// What a judge in code represents: before the first record, and after one that draws one element, a CELL by its name, or one
/// that no canonical file has there.
pub fn judge_represents()
    ensures first { JudgeStandsFirst }
    ensures draws { JudgeDraws }
    ensures opens { JudgeOpens }
    ensures refuses { JudgeRefuses }
{}
