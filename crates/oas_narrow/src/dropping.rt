//! What may be left out of a file, and what was.
ghost use Rattle.std.specs.Prelude.{◌≡◌};
ghost use Rattle.oas_narrow.specs.Dropping.{is_named, is_name, undropped, counted};

use oas_block::WideWhy;

/// What may be left out of a file, since the profile has no such record.
#[derive(Clone, Copy, Debug, PartialEq, Eq)]
pub enum Extra {
    /// A name or a string for properties (SEMI P39, PROPNAME, PROPSTRING), ids 7 to 10.
    PropertyName,
    /// A property, ids 28 and 29.
    Property,
    /// A layer name, ids 11 and 12.
    LayerName,
    /// A name for extensions (XNAME), ids 30 and 31.
    ExtensionName,
    /// An extension among the elements (XELEMENT), id 32.
    ExtensionElement,
}

/// What the user has named to be left out. Nothing else is.
#[derive(Clone, Copy, Debug, PartialEq, Eq)]
pub struct Dropping {
    /// Properties, and the names and strings for them.
    pub properties: bool,
    /// Layer names.
    pub layer_names: bool,
    /// Extensions, and the names for them.
    pub extensions: bool,
}

impl Extra {
    /// Whether it is a name record, like those of cells: after it no cell is open (SEMI P39, CELL record).
    pub fn is_name(&self) -> bool
        ensures { result ≡ is_name self.now }
    {
        match self {
            Extra::PropertyName | Extra::LayerName | Extra::ExtensionName => true,
            Extra::Property | Extra::ExtensionElement => false,
        }
    }

    /// Why it stops a file where it isn't to be left out.
    pub(crate) fn undropped(&self) -> WideWhy
        ensures { result ≡ undropped self.now }
    {
        match self {
            Extra::PropertyName | Extra::Property => WideWhy::Properties,
            Extra::LayerName => WideWhy::LayerNames,
            Extra::ExtensionName | Extra::ExtensionElement => WideWhy::Extensions,
        }
    }
}

impl Dropping {
    /// Whether it is named to be left out.
    pub fn has(&self, extra: Extra) -> bool
        ensures { result ≡ is_named self.now extra }
    {
        match extra {
            Extra::PropertyName | Extra::Property => self.properties,
            Extra::LayerName => self.layer_names,
            Extra::ExtensionName | Extra::ExtensionElement => self.extensions,
        }
    }
}

/// How many records were left out, capped to 64 bits.
#[derive(Clone, Copy, Debug, PartialEq, Eq)]
pub struct Report {
    /// Names and strings for properties, ids 7 to 10.
    pub property_names: u64,
    /// Properties, ids 28 and 29.
    pub properties: u64,
    /// Layer names, ids 11 and 12.
    pub layer_names: u64,
    /// Names for extensions, ids 30 and 31.
    pub extension_names: u64,
    /// Extensions, ids 32 and 33.
    pub extensions: u64,
}

impl Report {
    ghost use Rattle.std.specs.Prelude.{[]};
    ghost use Rattle.oas_narrow.specs.Dropping.{nothing_left_out};

    /// Nothing was left out.
    pub fn new() -> Report
        ensures { result ≡ nothing_left_out }
    {
        Report {
            property_names: 0,
            properties: 0,
            layer_names: 0,
            extension_names: 0,
            extensions: 0,
        }
    }

    /// Counts one more.
    pub fn count(&mut self, extra: Extra)
        ensures { self.new ≡ counted self.old extra }
    {
        match extra {
            Extra::PropertyName => self.property_names = self.property_names.saturating_add(1),
            Extra::Property => self.properties = self.properties.saturating_add(1),
            Extra::LayerName => self.layer_names = self.layer_names.saturating_add(1),
            Extra::ExtensionName => self.extension_names = self.extension_names.saturating_add(1),
            Extra::ExtensionElement => self.extensions = self.extensions.saturating_add(1),
        }
    }
}
