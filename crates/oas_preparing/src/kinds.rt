//! The kinds of records that are left out, in words.

ghost use Rattle.std.specs.Prelude.{◌≡◌};
ghost use Rattle.oas_preparing.specs.Kinds.{left_out, singular, plural, name_for};

use oas_prepare::{Extra, Report};

/// All kinds, in the order of a line.
pub(crate) const KINDS: [Extra; 5] = [
    Extra::Property,
    Extra::PropertyName,
    Extra::LayerName,
    Extra::ExtensionElement,
    Extra::ExtensionName,
];

/// How many records of a kind were left out.
pub(crate) fn left_out(report: Report, kind: Extra) -> u64
    ensures { result ≡ left_out report kind }
{
    match kind {
        Extra::PropertyName => report.property_names,
        Extra::Property => report.properties,
        Extra::LayerName => report.layer_names,
        Extra::ExtensionName => report.extension_names,
        Extra::ExtensionElement => report.extensions,
    }
}

/// The name of this many records of a kind.
pub(crate) fn name_for(number: u64, kind: Extra) -> &'static str
    ensures { result.now ≡ name_for number kind }
{
    if number == 1 {
        singular(kind)
    } else {
        plural(kind)
    }
}

/// The name of one record of a kind.
fn singular(kind: Extra) -> &'static str
    ensures { result.now ≡ singular kind }
{
    match kind {
        Extra::PropertyName => "property name",
        Extra::Property => "property",
        Extra::LayerName => "layer name",
        Extra::ExtensionName => "extension name",
        Extra::ExtensionElement => "extension",
    }
}

/// The name of several records of a kind, or of none.
fn plural(kind: Extra) -> &'static str
    ensures { result.now ≡ plural kind }
{
    match kind {
        Extra::PropertyName => "property names",
        Extra::Property => "properties",
        Extra::LayerName => "layer names",
        Extra::ExtensionName => "extension names",
        Extra::ExtensionElement => "extensions",
    }
}
