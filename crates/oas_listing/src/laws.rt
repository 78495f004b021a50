//! The law of listings: the contract of a function that does nothing.
ghost use Rattle.oas_listing.specs.Laws.ListingLaws.{OneListing};

/// Layouts that are the same under their profile have the same listing.
pub fn one_listing()
    ensures { OneListing }
{}
