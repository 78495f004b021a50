//! Rows under limits of their own, each with the wrong reading that it rules out above it, as in `readings_table`.

/// Rows under limits of their own: after the name come those of elements, weight and input.
pub const UNDER_LIMITS: &str = "\
# a modal string weighs nothing until END
modal-string-is-weighed-at-its-text | 5 7 768 | CELL 135B02486903000000 131002 | 25@46
# a placed cell's name behind a number weighs nothing
placed-name-behind-a-number | 5 3 512 | CELL 11C000 030142 | 25@43
# a text's string behind a number weighs nothing
string-behind-a-number | 5 3 512 | CELL 1363000000 050142 | 25@45
# a modal cell name weighs nothing until END
modal-name-is-weighed-at-its-placement | 5 5 640 | CELL 11B001420000 112028 | 25@43
# a name weighs once for all copies
each-copy-weighs-its-name | 5 5 640 | CELL 11B801420000020000 | 25@37
# elements are limited in each cell by itself
elements-of-two-cells | 1 100 6720 | CELL RECT 0E0142 RECT | 24@48
# the vertex that types 0 and 1 understand weighs nothing
understood-vertex-weighs | 5 6 704 | CELL 153B0100000214280000 | 25@37
# a cell by name weighs nothing until END
cell-is-weighed-at-its-record | 5 1 384 | CELL | 25@34
# 23 comes before 25
too-heavy-and-too-far | 9 3 512 | CELL 16FB010081 80*7 100F000004000000 | 25@37
# 25 comes before 24
too-many-and-too-heavy | 1 2 448 | CELL 147F01000A14000002001E | 24@37
# the copies of a record count once
each-copy-counts | 1 100 6720 | CELL 147F01000A14000002001E | 24@37
# equal elements count once
equal-elements-count | 1 100 6720 | CELL RECT RECT | 24@45
# a turned placement's name weighs nothing until END
name-of-a-turned-placement | 5 3 512 | CELL 12B001420000 | 25@37
# a modal point list weighs nothing
modal-list-is-weighed | 5 9 896 | CELL 153B01000402012829000000 151B01002800 | 25@49
# a cell by number weighs 1 at its record
cell-by-number-weighs-at-the-end | 5 0 320 | 0D00 030141 | 25@39
# a cell by number weighs nothing
cell-by-number-weighs | 5 1 384 | 0D00 030141 | 25@39
# a rectangle weighs its corners
rectangle-weighs-one | 1 3 512 | CELL RECT | same
# a polygon weighs nothing in the whole weight
polygon-in-the-whole-weight | 5 5 640 | 0D00 153B01000402012829000000 030141 | 25@51
# a path weighs nothing in the whole weight
path-in-the-whole-weight | 5 3 512 | 0D00 16FB0100050F000004000000 030141 | 25@51
# equal elements weigh once in the whole weight
equal-elements-in-the-whole-weight | 5 4 576 | 0D00 RECT RECT RECT 030141 | 25@63
# the whole weight has to be below its limit
whole-weight-at-its-limit | 5 5 640 | 0D00 RECT RECT RECT 030141 | CELL RECT RECT RECT
# the whole weight is asked of each cell by itself
cells-in-the-whole-weight | 5 5 640 | 0D00 RECT 0D01 RECT 030141 030142 | 25@60
# 25 comes before 27
defined-twice-and-too-heavy | 5 1 384 | 0D00 0D00 030141 | 27@41
# a box weighs 1 in the whole weight
box-in-the-whole-weight | 5 6 704 | 0D00 153B0100000214280000 030141 | 25@49
# a placed cell's name weighs at its placement where it is known
known-name-behind-a-number | 5 3 512 | 030142 CELL 11F0000000 | 25@45
# a text's string weighs at its text where it is known
known-string-behind-a-number | 5 3 512 | 050142 CELL 137B0000000000 | 25@47
# a cell by number weighs at its record where its name is known
cell-by-known-number | 5 1 384 | 030141 0D00 | 25@39
# the weight begins again at each cell
two-cells-weigh-together | 5 5 640 | CELL RECT 0E0142 RECT | 25@48
# 25 comes before 26
unknown-and-too-heavy | 5 1 384 | 0D00 0D07 030141 | 26@41
# a circle weighs 2 at its record
circle-weighs-one | 1 3 512 | CELL 1B3B0100050000 | same
# a circle weighs 2 in the whole weight
circle-in-the-whole-weight | 1 3 512 | 0D00 1B3B0100050000 030141 | CELL 1B3B0100050000
# the vertex that type 1 understands weighs nothing
understood-vertex-of-type-1-weighs | 5 6 704 | CELL 153B0100010228140000 | 25@37
# a path's modal point list weighs nothing
modal-path-list-is-weighed | 5 5 640 | CELL 16FB0100050F000004000000 161028 | 25@49
# a text weighs once for all copies
each-copy-of-a-text-weighs | 5 5 640 | CELL 135F01420000000002001E | 25@37
# a polygon weighs once for all copies
each-copy-of-a-polygon-weighs | 5 9 896 | CELL 153F0100040201282900000002001E | 25@37
# a rectangle weighs once for all copies
each-copy-of-a-rectangle-weighs | 5 4 576 | CELL 147F01000A14000002011E | 25@37
# the copies of a placement count once, or not at all
each-copy-of-a-placement-counts | 1 100 6720 | CELL 11B80142000002001E | 24@37
# the copies of a turned-placement count once, or not at all
each-copy-of-a-turned-placement-counts | 1 100 6720 | CELL 12B80142000002001E | 24@37
# the copies of a text count once, or not at all
each-copy-of-a-text-counts | 1 100 6720 | CELL 135F01420000000002001E | 24@37
# the copies of a polygon count once, or not at all
each-copy-of-a-polygon-counts | 1 100 6720 | CELL 153F0100040201282900000002001E | 24@37
# the copies of a path count once, or not at all
each-copy-of-a-path-counts | 1 100 6720 | CELL 16FF0100050F00000400000002001E | 24@37
# the copies of a circle count once, or not at all
each-copy-of-a-circle-counts | 1 100 6720 | CELL 1B3F010005000002001E | 24@37
# a circle weighs nothing
circle-weighs-at-its-record | 5 2 448 | CELL 1B3B0100050000 | 25@37
# a text's string weighs twice
string-weighs-once | 5 5 640 | CELL 135B02486903000000 | same
# a circle weighs once for all copies
each-copy-of-a-circle-weighs | 5 4 576 | CELL 1B3F010005000002011E | 25@37
# the copies of a placement weigh once
copies-of-a-placement-weigh | 2 5 640 | CELL 11B80142000002001E | 25@37
# a placement weighs more than that
copies-of-a-placement-of-the-largest-weight | 2 6 704 | CELL 11B80142000002001E | CELL 11B001420000 11B001423C00
# the copies of a turned placement weigh once
copies-of-a-turned-placement-weigh | 2 5 640 | CELL 12B80142000002001E | 25@37
# a turned placement weighs more than that
copies-of-a-turned-placement-of-the-largest-weight | 2 6 704 | CELL 12B80142000002001E | CELL 11B001420000 11B001423C00
# the copies of a text weigh once
copies-of-a-text-weigh | 2 5 640 | CELL 135F01420000000002001E | 25@37
# a text weighs more than that
copies-of-a-text-of-the-largest-weight | 2 6 704 | CELL 135F01420000000002001E | CELL 135B014200000000 135B014200003C00
# the copies of a rectangle weigh once
copies-of-a-rectangle-weigh | 2 3 512 | CELL 147F01000A14000002001E | 25@37
# a rectangle weighs more than that
copies-of-a-rectangle-of-the-largest-weight | 2 4 576 | CELL 147F01000A14000002001E | CELL 147B01000A140000 147B01000A143C00
# the copies of a polygon weigh once
copies-of-a-polygon-weigh | 2 9 896 | CELL 153F0100040201282900000002001E | 25@37
# a polygon weighs more than that
copies-of-a-polygon-of-the-largest-weight | 2 10 960 | CELL 153F0100040201282900000002001E | CELL 153B01000402012829000000 153B01000402012829003C00
# the copies of a path weigh once
copies-of-a-path-weigh | 2 5 640 | CELL 16FF0100050F00000400000002001E | 25@37
# a path weighs more than that
copies-of-a-path-of-the-largest-weight | 2 6 704 | CELL 16FF0100050F00000400000002001E | CELL 16FB0100050F000004000000 16FB0100050F000004003C00
# the copies of a circle weigh once
copies-of-a-circle-weigh | 2 3 512 | CELL 1B3F010005000002001E | 25@37
# a circle weighs more than that
copies-of-a-circle-of-the-largest-weight | 2 4 576 | CELL 1B3F010005000002001E | CELL 1B3B0100050000 1B3B0100053C00
";
