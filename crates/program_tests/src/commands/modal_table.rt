//! Rows on modal variables and the xy-mode, each with the wrong reading that it rules out above it, as in `readings_table`.

/// The rows, under the standard limits.
pub const MODAL: &str = "\
# what was a square once stays a square
width-given-after-a-square | CELL 14DB01000A0000 144005 | CELL 147B0100050A0000 147B01000A0A0000
# a rectangle's width is the half-width of paths
width-is-no-half-width | CELL 16FB0100050F000004000000 147B010009140000 161028 | CELL 147B010009140000 16FB0100050F000004000000 16FB0100050F000004002800
# a text sets the layer of geometry
layer-is-no-textlayer | CELL RECT 135B0003000000 141028 | CELL 135B0003000000 RECT 147B01000A142800
# once relative, always relative
absolute-again | CELL 10 147B01000A140A0A 0F 141002 | CELL 147B01000A14020A 147B01000A140A0A
# XYABSOLUTE begins again at (0, 0)
absolute-from-the-modal-position | CELL 147B01000A140A0A 0F 140802 | CELL 147B01000A140A02 147B01000A140A0A
# placements are never relative
relative-placement | CELL 10 11B001420A0A 112002 | CELL 11B001420A0A 11B001420C0A
# texts are never relative
relative-text | CELL 10 135B0001000A0A 131002 | CELL 135B0001000A0A 135B0001000C0A
# texts have a modal repetition of their own
repetition-from-geometry-to-text | CELL 147F01000A14000002001E 135F000100000000 | CELL 135B0001000000 135B0001003C00 RECT 147B01000A143C00
# circles have a modal repetition of their own
repetition-from-rectangle-to-circle | CELL 147F01000A14000002001E 1B3F010005000000 | CELL RECT 147B01000A143C00 1B3B0100050000 1B3B0100053C00
# circles have a modal layer and datatype of their own
layer-from-rectangle-to-circle | CELL RECT 1B38050000 | CELL RECT 1B3B0100050000
# circles have a modal position of their own
position-from-rectangle-to-circle | CELL 147B01000A140A0A 1B23010005 | CELL 147B01000A140A0A 1B3B0100050A0A
# a rectangle's width is the radius of circles
width-is-no-radius | CELL 1B3B0100050000 147B010009090000 1B1028 | CELL 147B010009090000 1B3B0100050000 1B3B0100052800
# polygons and paths have one modal list
list-of-polygons-is-none-of-paths | CELL 16FB0100050F000004000000 153B01000402290001280000 161028 | CELL 153B01000402290001280000 16FB0100050F000004000000 16FB0100050F000004002800
# CELL leaves placement-cell as it is
cell-ends-the-placed-cell | CELL 11B001420000 0E0143 11300000 | 18@46
# CELL leaves text-string as it is
cell-ends-the-string | CELL 135B0001000000 0E0143 131B01000000 | 18@47
# CELL leaves textlayer and texttype as they are
cell-ends-textlayer-and-texttype | CELL 135B0001000000 0E0143 1358000000 | 18@47
# CELL leaves the datatype as it is
cell-ends-the-datatype | CELL RECT 0E0143 1479010A140000 | 18@48
# CELL leaves geometry-w as it is
cell-ends-the-width | CELL RECT 0E0143 143B0100140000 | 18@48
# CELL leaves geometry-h as it is
cell-ends-the-height | CELL RECT 0E0143 145B01000A0000 | 18@48
# CELL leaves circle-radius as it is
cell-ends-the-radius | CELL 1B3B0100050000 0E0143 1B1B01000000 | 18@47
# CELL leaves polygon-point-list as it is
cell-ends-the-list-of-polygons | CELL 153B01000402290001280000 0E0143 151B01000000 | 18@52
# CELL leaves path-point-list as it is
cell-ends-the-list-of-paths | CELL 16FB0100050F000004000000 0E0143 16DB0100050F00000000 | 18@52
# CELL leaves path-half-width as it is
cell-ends-the-half-width | CELL 16FB0100050F000004000000 0E0143 16BB01000F000004000000 | 18@52
# CELL leaves placement-x and placement-y as they are
placements-begin-at-zero-in-each-cell | CELL 11B001420A0A 0E0143 11800142 | CELL 11B001420A0A 0E0143 11B001420000
# CELL leaves text-x and text-y as they are
texts-begin-at-zero-in-each-cell | CELL 135B0001000A0A 0E0143 1343000100 | CELL 135B0001000A0A 0E0143 135B0001000000
# an extension of the half-width needs a half-width in its own record
extended-by-the-modal-half-width | CELL 16FB0100050F000004000000 16900A28 | CELL 16FB0100050F000004000000 16FB0100050F0A0A04002800
# flush isn't kept as a modal extension
flush-stays-for-the-next-path | CELL 16FB0100050504000000 161028 | CELL 16FB0100050F000004000000 16FB0100050F000004002800
# a datatype is 0 where none was given
datatype-never-given | CELL 1479010A140000 | 18@37
# a texttype is 0 where none was given
texttype-never-given | CELL 135900010000 | 18@37
# a textlayer is 0 where none was given
textlayer-never-given | CELL 135A00010000 | 18@37
# XYRELATIVE before a cell holds in the cell
relative-before-a-cell | 10 CELL 147B01000A140A0A 141002 | CELL 147B01000A14020A 147B01000A140A0A
# XYRELATIVE after a name record holds in the next cell
relative-after-a-name | CELL 030142 10 0E0143 147B01000A140A0A 141002 | CELL 0E0143 147B01000A14020A 147B01000A140A0A
# R = 0 makes the modal repetition undefined
repetition-stays-past-a-single-copy | CELL 147F01000A14000002001E 141028 14145000 | CELL RECT 147B01000A142800 147B01000A143C00 147B01000A145000 147B01000A148C0100
# CELL leaves textlayer as it is
cell-ends-the-textlayer | CELL 135B0001000000 0E0143 135A0142000000 | 18@47
# CELL leaves texttype as it is
cell-ends-the-texttype | CELL 135B0001000000 0E0143 13590142010000 | 18@47
# CELL leaves the layer as it is
cell-ends-the-layer | CELL RECT 0E0143 147A000A140000 | 18@48
# CELL leaves path-start-extension as it is
cell-ends-the-start-extension | CELL 16FB0100050F000004000000 0E0143 16FB0100050104000000 | 18@52
# CELL leaves path-end-extension as it is
cell-ends-the-end-extension | CELL 16FB0100050F000004000000 0E0143 16FB0100050404000000 | 18@52
# CELL leaves geometry-x and geometry-y as they are
geometry-begins-at-zero-in-each-cell | CELL 147B01000A140A0A 0E0143 146301000A14 | CELL 147B01000A140A0A 0E0143 RECT
# a layer is 0 where none was given
layer-never-given | CELL 147A000A140000 | 18@37
# a start extension is 0 where none was given
start-extension-never-given | CELL 16FB0100050104000000 | 18@37
# an end extension is 0 where none was given
end-extension-never-given | CELL 16FB0100050404000000 | 18@37
# a modal repetition that nothing gave is one copy
repetition-never-given | CELL 147F01000A14000000 | 18@37
# placements, polygons and paths have modal repetitions of their own
repetition-for-each-kind | CELL 147F01000A14000002001E 12B80142000000 153F0100040201282900000000 16FF0100050F00000400000000 | CELL 11B001420000 11B001423C00 RECT 147B01000A143C00 153B01000402012829000000 153B01000402012829003C00 16FB0100050F000004000000 16FB0100050F000004003C00
# polygons and paths have modal layers and datatypes of their own
layer-for-polygon-and-path | CELL RECT 15380402012829000000 16F8050F000004000000 | CELL RECT 153B01000402012829000000 16FB0100050F000004000000
# one modal length for rectangles, paths and circles
lengths-of-one-kind-are-its-own | CELL RECT 1B3B0100070000 16FB0100050F000004000000 143B0100142800 1B1B01002800 1B3B0100090028 16BB01000F000004002800 143B0100145000 | CELL RECT 147B01000A142800 147B01000A145000 16FB0100050F000004000000 16FB0100050F000004002800 1B3B0100070000 1B3B0100072800 1B3B0100090028
# texts and geometry share layers and types
layers-of-texts-are-their-own | CELL 135B014203040000 147B01020A140000 135801422800 135B014305060000 14780A142800 | CELL 135B014203040000 135B014203042800 135B014305060000 147B01020A140000 147B01020A142800
# a path's list is the modal list of polygons
list-of-paths-is-none-of-polygons | CELL 153B01000402290001280000 16FB0100050F0000040129290000 151B01002800 | CELL 153B01000402290001280000 153B01000402290001282800 16FB0100050F0000040129290000
# a text's string and a placed cell are one modal variable
string-is-no-placed-cell | CELL 11B001420000 135B014300000000 11302800 11B001440000 131B01002800 | CELL 11B001420000 11B001422800 11B001440000 135B014300000000 135B014301002800
# a square without a width takes its height from geometry-h
square-of-the-modal-width | CELL RECT 149B01002800 | CELL 147B01000A0A2800 RECT
# start and end extensions are one modal variable
extensions-are-two-variables | CELL 16FB0100050F040C04000000 16FB0100050104002800 16FB0100050D0804005000 16FB0100050404005000 | CELL 16FB0100050F000004005000 16FB0100050F040004002800 16FB0100050F040C04000000 16FB0100050F080004005000
# turns are modal
turns-are-not-kept | CELL 11B601420000 11B001422800 | same
# an angle is modal
angle-is-not-kept | CELL 12B20142005A0000 12B001422800 | CELL 11B201420000 11B001422800
# a flip is modal
flip-is-not-kept | CELL 12B101420000 12B001422800 | CELL 11B101420000 11B001422800
# PAD ends the relative mode
relative-past-a-pad | CELL 10 147B01000A140A0A 00 141002 | CELL 147B01000A140A0A 147B01000A140C0A
# a mode holds for one element, or the last one for the whole cell
each-mode-until-the-next | CELL 10 147B01000A140A0A 0F 141028 14103C 10 141002 141002 | CELL 147B01000A140A0A 147B01000A14280A 147B01000A143C0A 147B01000A143E0A 147B01000A14400A
# y is never relative
relative-y | CELL 10 147B01000A140A0A 140802 | CELL 147B01000A140A0A 147B01000A140A0C
# polygons and paths have positions of their own
position-for-polygon-and-path | CELL 147B01000A140A0A 15230100040201282900 16E30100050F00000400 | CELL 147B01000A140A0A 153B01000402012829000A0A 16FB0100050F000004000A0A
# turned placements have positions of their own
position-for-a-turned-placement | CELL 11B001420A0A 12800142 | CELL 11B001420A0A 11B001420A0A
# placements, texts and geometry share a position
three-positions | CELL 11B001420A0A 135B0001001414 147B01000A141E1E 11800143 134301420000 146301000A14 | CELL 11B001420A0A 11B001430A0A 135B0001001414 135B014200001414 147B01000A141E1E 147B01000A141E1E
# CELL by number leaves the modal variables as they are
cell-by-number-ends-the-datatype | CELL RECT 0D00 1479010A140000 030143 | 18@47
# CELL by number leaves the positions or the xy-mode as they are
cell-by-number-begins-at-zero | CELL 10 147B01000A140A0A 0D00 146301000A14 141002 141002 030143 | CELL 147B01000A140A0A 0E0143 RECT 147B01000A140200 147B01000A140200
";
