//! What follows from the rules. Each function's contract is a law, and its body is empty.
ghost use Rattle.oas_trapezoids.specs.Laws.{ProfileAsItIs, CellBeginsAnew, OnlyReasons, VerticesAreCorners, KeepsVariables, DrawnAsByTheStandard, StaysRead, ShapesAreKept, ShapesAreRead};

/// Where there are only records of the profile, they are returned unchanged.
pub fn profile_alone()
    ensures { ProfileAsItIs }
{}

/// A CELL is returned, and after it all is as at the beginning.
pub fn cells()
    ensures { CellBeginsAnew }
{}

/// A record is refused with `ModalUndefined`, `CoordinateRange`, `InfoByte`, `CtrapezoidType` or `Trapezoid`, and with
/// nothing else.
pub fn reasons()
    ensures { OnlyReasons }
{}

/// The list of a trapezoid's polygon has the trapezoid's corners as its vertices, at the polygon's position.
pub fn corners()
    ensures { VerticesAreCorners }
{}

/// What is tracked are the variables of the standard, over each record of the profile that doesn't exceed the limits.
pub fn variables()
    ensures { KeepsVariables }
{}

/// In a cell with trapezoids or geometry of extensions, each element of the profile is returned so that it draws what it
/// draws by the standard.
pub fn drawing()
    ensures { DrawnAsByTheStandard }
{}

/// A reader of the returned records has the same of the standard's variables after one more record of the profile.
pub fn reading()
    ensures { StaysRead }
{}

/// After a trapezoid and after geometry of an extension too, what is tracked are the variables of the standard, and a reader
/// of the returned records has the same of them.
pub fn shapes()
    ensures kept { ShapesAreKept }
    ensures read { ShapesAreRead }
{}
