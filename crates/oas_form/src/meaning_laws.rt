//! Laws of the records of canonical files. Each is the contract of a function that does nothing.
ghost use Rattle.oas_form.specs.RecordMeaning.{RecordsSplit, CanonicalMeans, ShortestIsCanonical, ShortestHasPoints, ShortestHead, CanonicalAllowed, CanonicalWhole, AscendingWhole};

/// The records of cells followed by further cells are the records of the first, and then of the others.
pub fn records_split()
    ensures { RecordsSplit }
{}

/// The records of cells mean these cells.
pub fn canonical_means()
    ensures { CanonicalMeans }
{}

/// A file in the shortest style has the records of the cells that it means, and their elements have the points that they
/// need. Its unit is in lowest terms, and its table-offsets are in START.
pub fn shortest_is_canonical()
    ensures records { ShortestIsCanonical }
    ensures points { ShortestHasPoints }
    ensures head { ShortestHead }
{}

/// The records of cells are accepted, where the cells are within the limits, their elements have their points and are within
/// the grid, and no name occurs twice.
pub fn canonical_is_accepted()
    ensures allowed { CanonicalAllowed }
    ensures whole { CanonicalWhole }
    ensures ascending { AscendingWhole }
{}
