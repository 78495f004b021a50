//! Rows that distinguish the rules of docs/PROFILE.md from wrong readings of them, one a line. Above each row is the wrong
//! reading that it rules out: a program with that reading, and right in all else, gives another result.
//!
//! A row is a name, what is between HEAD and TAIL, and the result: a refusal, as NUMBER@OFFSET, or what is between HEAD and
//! TAIL in the canonical file, or `same`. Bytes are in pieces, as in `table`. The results were worked out from the rules, and
//! programs that were written apart from this one agree on them.

/// Rows under the standard limits.
pub const READINGS: &str = "\
# 0/0 is a magnification of 1
scaled-by-zero-over-zero | CELL 12B401420400000000 | 19@37
# 0/0 is a multiple of 90
turned-by-zero-over-zero | CELL 12B201420400000000 | 20@37
# a relative x has to be within the grid itself
step-longer-than-the-grid | CELL 1B3B01000581 80*7 2000 10 1B10 80*8 40 | CELL 1B3B01000581 80*7 2000 1B3B010005 80*8 2000
# -1 is a magnification of 1
scaled-by-minus-one | CELL 12B4014201010000 | 19@37
# an angle with a denominator is no multiple of 90
turned-by-180-halves | CELL 12B2014204B401020000 | CELL 11B201420000
# the numerator alone decides of an angle
turned-by-90-halves | CELL 12B20142045A020000 | 20@37
# the first and the last vertex decide
middle-vertex-past-the-edge | CELL 16FB0100050F0000040285 80*7 400087 80*7 40000000 | 23@37
# the first and the last copy decide
middle-copy-past-the-edge | CELL 147F0100000000000A0185 80*7 400083 80*7 4000 | 23@37
# cell names and text strings are counted together
numbers-of-strings-begin-at-zero | 030141 050142 0D00 1363000100 | CELL 135B014201000000
# a placement by number may stand anywhere
placement-by-number-past-the-edge | CELL 11F00082 80*7 2000 030142 | 23@37
# a text by number may stand anywhere
text-by-number-past-the-edge | CELL 137B00010082 80*7 2000 050142 | 23@37
# placements by number come after those by name
by-number-among-those-by-name | CELL 11B001430000 11F0000000 11B001410000 030142 | CELL 11B001410000 11B001420000 11B001430000
# a radius has no limit
radius-past-the-limit | CELL 1B3B010081 80*7 100000 | 23@37
# a half-width has no limit
half-width-past-the-limit | CELL 16FB010081 80*7 100F000004000000 | 23@37
# an end extension has no limit
end-extension-past-the-limit | CELL 16FB0100050F0083 80*7 2004000000 | 23@37
# a text may stand anywhere
text-past-the-edge | CELL 135B00010082 80*7 2000 | 23@37
# a placement may stand anywhere
placement-past-the-edge | CELL 11B0014283 80*7 2000 | 23@37
# a path of type 0 or 1 understands a vertex too
path-understands-no-vertex | CELL 16FB0100050F0000000214280000 16FB0100050F0000010214280000 | CELL 16FB0100050F00000402011451000000 16FB0100050F00000402290001280000
# types 0 and 1 begin along the same axis
path-of-types-0-and-1 | CELL 16FB0100050F00000003142A060000 16FB0100050F00000103142A060000 | CELL 16FB0100050F000004030114550001060000 16FB0100050F000004032900012A0D000000
# two bits of direction in other order
path-of-type-2 | CELL 16FB0100050F0000020404090E130000 | CELL 16FB0100050F00000404050001040F0001090000
# three bits of direction in other order, or two of them
path-of-type-3 | CELL 16FB0100050F0000030808111A232C353E470000 | CELL 16FB0100050F00000408050001040F000109150A1B0C1F0F21110000
# a short g-delta with directions in other order
path-of-short-displacements | CELL 16FB0100050F0000040810223446586A7C8E010000 | CELL 16FB0100050F00000408050001040F000109150A1B0C1F0F21110000
# a long g-delta with its sign or its axes elsewhere
path-of-long-displacements | CELL 16FB0100050F000004040D08170D0F0815070000 | same
# of two visits to the least vertex the first begins the reading
ring-that-begins-at-a-later-visit | CELL 153B01000405110001081309010409040000 | CELL 153B01000405010409040B09110001080000
# a path read backwards is the same path
path-and-the-same-backwards | CELL 16FB0100050F0000040129000000 16FB0100050F000004012B001400 | same
# a start extension has no limit
start-extension-past-the-limit | CELL 16FB0100050F83 80*7 200004000000 | 23@37
# extensions may not be negative
extensions-below-zero | CELL 16FB0100050F030504000000 | same
# a circle may stand anywhere
circle-past-the-edge | CELL 1B3B01000582 80*7 2000 | 23@37
# a half-width or radius counts from the position
lengths-that-reach-past-the-edge | CELL 16FB0100 80*8 100F00000400 80*8 2000 1B3B0100 80*8 1000 80*8 20 | same
# a position outside a cell is looked for in a variable first
rectangle-without-a-cell-and-without-fields | 141028 | 13@34
# TEXTSTRING leaves the cell open
element-after-a-text-string | CELL 050142 RECT | 13@40
# 19 comes before 18
magnified-and-undefined | CELL 123400020000 | 18@37
# 24 comes before 20
too-many-and-turned-by-45 | CELL 12BA0142002D000001FF1FFE1F0000 | 20@37
# a string has to be printable without spaces
string-with-spaces | CELL 135B0361206201000000 | same
# a polygon's count is asked once its deltas were read
count-before-the-deltas | CELL 153B01000401 80*10 00 | 16@37
# a row of type 3 runs along x
row-along-y | CELL 147F01000A14000003001E | CELL RECT 147B01000A14003C
# the dimensions or the spaces of a grid the other way round
grid-of-three-by-two | CELL 147F01000A1400000101001E28 | CELL RECT 147B01000A140050 147B01000A143C00 147B01000A143C50 147B01000A147800 147B01000A147850
# the spaces of type 4 from the first copy, or signed, or along y
spaces-along-x | CELL 147F01000A14000004011F29 | CELL RECT 147B01000A143E00 147B01000A14900100
# type 5 without its grid, or along y
spaces-along-x-on-a-grid | CELL 147F01000A1400000501030A15 | CELL RECT 147B01000A143C00 147B01000A14BA0100
# the spaces of type 6 from the first copy, or signed, or along x
spaces-along-y | CELL 147F01000A14000006011F29 | CELL RECT 147B01000A14003E 147B01000A14009001
# type 7 without its grid, or along x
spaces-along-y-on-a-grid | CELL 147F01000A1400000701030A15 | CELL RECT 147B01000A14003C 147B01000A1400BA01
# the displacements of type 8 the other way round, or its dimensions
slanted-grid | CELL 147F01000A1400000801000D08170C | CELL 147B01000A140B0C 147B01000A140514 RECT 147B01000A14021C 147B01000A140608 147B01000A140C10
# type 9 stands for one copy less
slanted-row | CELL 147F01000A14000009010D08 | CELL RECT 147B01000A140608 147B01000A140C10
# type 10 has a grid, or counts from the first copy
displacements-in-turn | CELL 147F01000A1400000A010D08170C | CELL 147B01000A140514 RECT 147B01000A140608
# the grid of type 11 counts for x alone
displacements-in-turn-on-a-grid | CELL 147F01000A1400000B01030D08170C | CELL 147B01000A140D3C RECT 147B01000A141218
# a running sum has no limit of its own: then 18
running-sum-past-its-limit | CELL 147E000A140000040081 80*7 40 | 23@37
# a running sum has the limit of coordinates: then 23
running-sum-at-its-limit | CELL 147E000A1400000400 80*8 40 | 18@37
# a running sum is asked before the grid is multiplied in
running-sum-past-its-limit-by-the-grid | CELL 147E000A14000005000281 80*7 20 | 23@37
# running sums are asked once all are read
running-sum-before-the-next-displacement | CELL 147F01000A1400000A010182 80*8 01 FF*9 02 | 23@37
# a space of a row has the limit of a running sum
row-of-wide-spaces | CELL 147E000A1400000200 80*9 01 | 18@37
# the bits of layer and datatype the other way round
layer-alone | CELL 147B01020A140000 14110328 | CELL 147B01020A140000 147B03020A142800
# the bits of textlayer and texttype the other way round
textlayer-alone | CELL 135B014201020000 13110328 | CELL 135B014201020000 135B014203022800
# the low bits of an extension scheme are the start's
explicit-start-and-flush-end | CELL 16FB0100050D0404000000 | CELL 16FB0100050F040004000000
# an extension scheme is one byte
extension-scheme-spelled-long | CELL 16FB0100058F00000004000000 | CELL 16FB0100050F000004000000
# N asks for a number, or is refused, where C is 0
number-bit-without-a-name | CELL 11B001420000 11702800 135B014300000000 133B01002800 | CELL 11B001420000 11B001422800 135B014300000000 135B014301002800
# the highest bit of a text's info byte says nothing
text-with-a-zero-bit | CELL 13DB014200000000 | 14@37
# bit 6 of a polygon's info byte says nothing
polygon-with-a-zero-bit | CELL 157B01000402012829000000 | 14@37
# bit 7 of a polygon's info byte says nothing
polygon-with-the-other-zero-bit | CELL 15BB01000402012829000000 | 14@37
# bit 7 of a circle's info byte says nothing
circle-with-the-other-zero-bit | CELL 1BBB0100050000 | 14@37
# a cell's name may be empty where it has a number
empty-name-with-a-number | 0300 | 5@34
# a text string may not be empty
empty-text-string | 0500 | -
# a string that stands again takes no number
name-that-stands-twice | 030141 030141 030142 0D02 | 0E0142
# cell names and text strings are numbered in one way
two-ways-of-numbering | 030141 06014205 | -
# text strings may be numbered in both ways
mixed-numbering-of-text-strings | 050141 06014205 | 21@37
# 22 comes before 21
mixed-and-another-string | 04014101 030142 | 21@38
# a string has one number only
two-numbers-of-one-name | 04014105 04014106 | -
# 27 comes before 26
defined-twice-and-unknown | CELL CELL 0D07 | 26@42
# a placed cell's number is looked for among text strings
number-of-the-other-class | CELL 11F0000000 050142 | 26@45
# a text's number is looked for among cell names
number-of-the-other-class-again | CELL 137B0000000000 030142 | 26@47
# a box may have no height
zero-height | CELL 153B010004030100290001000000 | same
# placements come by place before name
placements-by-name-first | CELL 11B001430000 11B001421400 | CELL 11B001421400 11B001430000
# placements come by turn before place
placements-by-place-before-turn | CELL 11B001421400 11B201420000 | CELL 11B201420000 11B001421400
# a flipped placement comes first
placement-before-its-flip | CELL 11B101420000 11B001420000 | CELL 11B001420000 11B101420000
# texts come by layer before string
texts-by-string-first | CELL 135B014301000000 135B014202000000 | CELL 135B014202000000 135B014301000000
# strings come by length
strings-by-bytes-first | CELL 135B014200000000 135B02414200000000 | CELL 135B02414200000000 135B014200000000
# circles come before polygons and paths
kinds-in-turn | CELL 1B3B0000050000 16FB0100050F000004000000 153B01000402012829000000 RECT 135B014200000000 11B001420000 | CELL 11B001420000 135B014200000000 RECT 153B01000402012829000000 16FB0100050F000004000000 1B3B0000050000
# paths come by their points, or by extensions before half-widths
paths-by-half-width-first | CELL 16FB0100090F000004000000 16FB0100050F040004001400 | CELL 16FB0100050F040004001400 16FB0100090F000004000000
# polygons come by the number of their points
polygons-by-points | CELL 153B01000402012829001400 153B010004030128290005280000 | CELL 153B010004030128290005280000 153B01000402012829001400
# points come by y before x
points-by-x-first | CELL 153B01000402012829001400 153B01000402012829000014 | CELL 153B01000402012829000014 153B01000402012829001400
# a longer list of points comes first
points-and-their-beginning | CELL 16FB0100050F0000040115000000 16FB0100050F000004000000 | CELL 16FB0100050F000004000000 16FB0100050F0000040115000000
# circles come by place before radius
circles-by-radius-first | CELL 1B3B0100090000 1B3B0100051400 | CELL 1B3B0100051400 1B3B0100090000
# F says that a field of a placement is given
flipped-with-fields-left-out | CELL 11B001420A0A 1101 112128 111128 1201 12213C 12113C | CELL 11B001420A0A 11B101420A0A 11B10142280A 11B101422828 11B101422828 11B101423C28 11B101423C3C
# L says that a path gives extensions
path-with-a-layer-and-modal-extensions | CELL 16FB0100050F040804000000 167B01000504002800 | CELL 16FB0100050F040804000000 16FB0100050F040804002800
# a text may not give all its fields
text-with-all-its-fields | CELL 137F000100000002001E 050142 | CELL 135B014201000000 135B014201003C00
# bit 6 of an info byte says nothing where it stands alone
polygon-with-a-zero-bit-alone | CELL 1540 | 14@37
# a polygon of type 1 may have an odd number of deltas
polygon-of-three-deltas-type-1 | CELL 153B01000103 | 16@37
# displacements count from the second copy on
four-displacements-in-turn | CELL 147F01000A1400000A020D08170C0D08 | CELL 147B01000A140514 RECT 147B01000A14021C 147B01000A140608
";

/// Rows with a whole file, as in `table`.
pub const WHOLE: &str = "\
# table offsets in END have to be 0
end-with-table-offsets-of-any-value | MAGIC START 00E807 01 02 0509*6 F001 00*240 00 | HEAD TAIL
# 14 comes after the fields
bad-info-at-the-end-of-input | HEAD CELL 14FB | 14@37
# padding has to be printable
padding-of-any-byte | HEAD 02FC01 FF*252 00 | HEAD TAIL
# offsets in END are given by START's flag, whatever END has
end-without-its-offsets | MAGIC START 00E807 01 TAIL | 28@22
";

/// A row of `show`, as in `runs`, with an element of each kind: equal ones are each listed, in the order of the standard's
/// fields.
pub const LISTED: &str = "\
elements-of-each-kind | show | HEAD CELL 11B701420206 135B02486903040103 RECT RECT 153B01000402012829000000 16FB0100050F030404012900010A 1B3B0100050000 TAIL | 0 | unit 1000/1;cell A;placement B 1 3 3 1;text 3 4 0 -1 Hi;rectangle 1 0 10 20 0 0;rectangle 1 0 10 20 0 0;polygon 1 0 0,0 0,20 10,20;path 1 0 5 -1 2 0,5 10,5;circle 1 0 5 0 0;
";
