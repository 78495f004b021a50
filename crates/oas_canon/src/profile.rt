//! The profile of the calls of this crate.

use oas_elements::Profile;

/// Which elements this crate treats as the same (own rule): a polygon that goes round a rectangle is that rectangle.
///
/// Each call uses it, except [`rekey`](crate::rekey), which goes from profile one to profile two.
pub const PROFILE: Profile = Profile::Two;
