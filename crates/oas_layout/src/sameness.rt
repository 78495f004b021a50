//! Whether two layouts that are held as keys are the same.

ghost use Rattle.std.specs.Prelude.{◌≡◌, ◌↔◌, IsTrue};
ghost use Rattle.oas_elements.specs.Contents.{meaning_of};
ghost use Rattle.oas_elements.specs.Meaning.{SameLayout};

use crate::layout::Layout;

impl Layout {
    /// Whether both have the same unit and the same cells, with the same count of each element, where both are of one profile. No
    /// element is read from its key.
    pub fn same(&self, other: &Layout) -> bool
        ensures { self.now.profile ≡ other.now.profile → IsTrue result ↔ SameLayout self.now.profile (meaning_of self.now) (meaning_of other.now) }
    {
        if self.unit != other.unit {
            return false;
        }
        self.cells == other.cells
    }
}
