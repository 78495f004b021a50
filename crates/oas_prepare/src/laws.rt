//! The laws of preparing. Each is the contract of a function that does nothing.
ghost use Rattle.oas_prepare.specs.Laws.{OneWideMeaning, SamePrepared, ProfileIsPrepared, ProfileAsCanonical, PreparedAgain, OneLastRecord};

/// A file of the standard means one layout.
pub fn one_wide_meaning()
    ensures { OneWideMeaning }
{}

/// Two files whose records are translated to the same layout are prepared to the same bytes, whatever the limits, and
/// whatever was left out of each.
pub fn same_prepared()
    ensures { SamePrepared }
{}

/// A file that the profile accepts is prepared, whatever is named to be left out: to its canonical file, with nothing left
/// out.
pub fn profile_files()
    ensures prepared { ProfileIsPrepared }
    ensures canonical { ProfileAsCanonical }
{}

/// What is prepared is prepared to itself.
pub fn prepared_again()
    ensures { PreparedAgain }
{}

/// The last record of a block's data is at one place; a file whose block ends too early stops there.
pub fn one_last_record()
    ensures { OneLastRecord }
{}
