//! Which cells of two layouts are compared, and which of their elements.

ghost use Rattle.std.specs.Prelude.{◌≡◌, ◌==◌, None};
ghost use Rattle.std.specs.List.{list_any};
ghost use Rattle.std.specs.Cmp.Lexicographic.{pointwise};
ghost use Rattle.oas_diff_options.specs.Choice.{is_datatype, is_layer, is_on, is_named};

/// A layer with all its datatypes, or with one of them.
#[derive(Clone, Copy, Debug, PartialEq, Eq)]
pub struct ChosenLayer {
    pub layer: u64,
    /// Without it all datatypes.
    pub datatype: Option<u64>,
}

/// Which cells of two layouts are compared, and which of their elements.
#[derive(Clone, Copy)]
pub struct Choice<'a> {
    /// The cells with these names; without it all cells.
    pub cells: Option<&'a [&'a str]>,
    /// The elements on these layers, and no cells; without it all elements, and the cells themselves. A placement is on no
    /// layer.
    pub layers: Option<&'a [ChosenLayer]>,
}

impl<'a> Choice<'a> {
    /// All cells, with all their elements.
    pub fn all() -> Choice<'a>
        ensures { result ≡ record { cells = None; layers = None } }
    {
        Choice {
            cells: None,
            layers: None,
        }
    }
}

impl ChosenLayer {
    /// Whether the datatype is meant.
    fn has_datatype(self, datatype: u64) -> bool
        ensures { result ≡ is_datatype self.datatype datatype }
    {
        match self.datatype {
            None => true,
            Some(only) => only == datatype,
        }
    }

    /// Whether this layer with this datatype is meant.
    fn has(self, layer: u64, datatype: u64) -> bool
        ensures { result ≡ is_layer self (layer, datatype) }
    {
        self.layer == layer && self.has_datatype(datatype)
    }
}

/// Whether one of these means this layer with this datatype.
fn any_layer(chosen: &[ChosenLayer], layer: u64, datatype: u64) -> bool
    ensures { result ≡ list_any (λ one. is_layer one (layer, datatype)) chosen.now }
{
    chosen.iter().any(|one| one.has(layer, datatype))
}

/// Whether an element is compared, given its layer and its datatype, which a placement does not have.
pub fn is_on(chosen: &[ChosenLayer], found: Option<(u64, u64)>) -> bool
    ensures { result ≡ is_on chosen.now found }
{
    match found {
        None => false,
        Some((layer, datatype)) => any_layer(chosen, layer, datatype),
    }
}

/// Whether one of the texts is this name.
fn any_name(cells: &[&str], name: &[u8]) -> bool
    ensures { result ≡ list_any (λ cell. pointwise ◌==◌ cell.now name.now) cells.now }
{
    cells.iter().any(|cell| cell.as_bytes() == name)
}

/// Whether the cells with this name are compared.
pub fn is_named(choice: Choice<'_>, name: &[u8]) -> bool
    ensures { result ≡ is_named choice.entry.cells name.now }
{
    match choice.cells {
        None => true,
        Some(cells) => any_name(cells, name),
    }
}
