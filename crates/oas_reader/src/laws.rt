//! What the definitions say. Each function's contract is a law, and its body is empty.
ghost use Rattle.oas_reader.specs.Alike.{AlikeMeanings};

/// Cells in which each thing is drawn as often are refused alike at END, and mean the same, whatever the order in which it is
/// drawn.
pub fn alike_cells()
    ensures { AlikeMeanings }
{}
