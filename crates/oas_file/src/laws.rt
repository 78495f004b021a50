//! Laws of the definitions. Each is the contract of a function that does nothing.
ghost use Rattle.oas_file.specs.Files.{OneReading};
ghost use Rattle.oas_file.specs.Acceptance.{OneMeaning};
ghost use Rattle.oas_file.specs.Places.{OnePlace, NoPlace, SomePlace};

/// One byte list has at most one START and one list of records.
pub fn one_reading()
    ensures { OneReading }
{}

/// A file means one layout.
pub fn one_meaning()
    ensures { OneMeaning }
{}

/// A file is refused at no more than one place: at none where it is accepted, and at one where it isn't.
pub fn one_place()
    ensures one { OnePlace }
    ensures none { NoPlace }
    ensures some { SomePlace }
{}
