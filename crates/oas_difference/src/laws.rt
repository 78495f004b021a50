//! The laws of differences, the contracts of functions that do nothing.
ghost use Rattle.oas_elements.specs.declared.profile.Profile.{Profile};
ghost use Rattle.oas_diff_options.specs.declared.format.Format.{Format};
ghost use Rattle.oas_diff_options.specs.declared.options.Options.{Options};
ghost use Rattle.oas_difference.specs.Laws.DifferenceLaws.{EmptyIfSame};
ghost use Rattle.oas_difference.specs.Laws.OptionLaws.{EmptyByOptions, AllByDefault};

/// In each format the difference of two layouts has no line exactly if they are the same under their profile.
pub fn empty_if_same()
    ensures { (format : Format) (profile : Profile) → EmptyIfSame format profile }
{}

/// What is written by any options is empty exactly if what they compare of the layouts is the same.
pub fn empty_by_options()
    ensures { (options : Options) (profile : Profile) → EmptyByOptions options profile }
{}

/// Where neither cells nor layers are named, all of a layout is compared.
pub fn all_by_default()
    ensures { AllByDefault }
{}
