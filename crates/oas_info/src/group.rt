//! The groups in which elements are counted.

/// What elements are counted by: a kind, or a layer with its datatype. The layers of texts are separate from those of shapes,
/// as in SEMI P39: a textlayer with its texttype.
///
/// Groups are ordered as in this declaration, and layers by their numbers (`group_cmp`, specs/Groups.antt).
#[derive(Clone, Copy, Debug, PartialEq, Eq, PartialOrd, Ord)]
pub enum Group {
    Placements,
    Texts,
    Rectangles,
    Polygons,
    Paths,
    Circles,
    /// The rectangles, polygons, paths and circles of a layer.
    Layer { layer: u64, datatype: u64 },
    /// The texts of a textlayer.
    TextLayer { textlayer: u64, texttype: u64 },
}
