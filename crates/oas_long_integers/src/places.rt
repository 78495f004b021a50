//! Places in an integer.
ghost use Rattle.std.specs.Prelude.{◌≡◌};
ghost use Rattle.oas_long_integers.specs.Places.{joined, given_by, moved};

/// Where in an integer the next byte is.
#[derive(Clone, Copy, Debug, PartialEq, Eq)]
pub(crate) enum Place {
    /// In none: it is given unchanged.
    Free,
    /// After this many groups, at most nine.
    Groups(u8),
    /// After its tenth group, which is held back.
    Tenth(u8),
}

/// A tenth group and one after it: where that isn't zero, a group that makes the integer 2^64 or above.
fn joined(group: u8, byte: u8) -> u8
    ensures { result ≡ joined group byte }
{
    if byte % 128 == 0 { group } else { 127 }
}

impl Place {
    /// What is given for a byte there.
    pub(crate) fn given_by(self, byte: u8) -> Option<u8>
        ensures { result ≡ given_by self byte }
    {
        match self {
            Place::Free => Some(byte),
            Place::Groups(_) if byte < 128 => Some(byte),
            Place::Groups(count) if count < 9 => Some(byte),
            Place::Groups(_) => None,
            Place::Tenth(group) if byte < 128 => Some(joined(group, byte)),
            Place::Tenth(_) => None,
        }
    }

    /// The place of the byte after it.
    pub(crate) fn moved(self, byte: u8) -> Place
        ensures { result ≡ moved self byte }
    {
        match self {
            Place::Free => Place::Groups(0),
            Place::Groups(_) if byte < 128 => Place::Groups(0),
            Place::Groups(count) if count < 9 => Place::Groups(count + 1),
            Place::Groups(_) => Place::Tenth(byte % 128),
            Place::Tenth(_) if byte < 128 => Place::Groups(0),
            Place::Tenth(group) => Place::Tenth(joined(group, byte)),
        }
    }
}
