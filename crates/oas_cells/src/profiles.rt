//! The profile by which elements are kept, as a type.

ghost use Rattle.std.specs.Prelude.{◌≡◌};

use oas_elements::Profile;

/// A profile by which elements are kept.
pub trait KeptBy {
    ghost use Rattle.oas_elements.specs.declared.profile.Profile.{Profile};

    /// The profile.
    ghost profile: { Profile };

    /// The profile.
    fn profile() -> Profile
        ensures { result ≡ profile };
}

/// Elements are kept by profile one.
#[derive(Drop)]
pub struct ByProfileOne;

/// Elements are kept by profile two.
#[derive(Drop)]
pub struct ByProfileTwo;

impl KeptBy for ByProfileOne {
    ghost use Rattle.oas_elements.specs.declared.profile.Profile.TheVariants.{One};

    ghost profile = { One };

    fn profile() -> Profile {
        Profile::One
    }
}

impl KeptBy for ByProfileTwo {
    ghost use Rattle.oas_elements.specs.declared.profile.Profile.TheVariants.{Two};

    ghost profile = { Two };

    fn profile() -> Profile {
        Profile::Two
    }
}
