//! The rows, one a line: a name, the records in hex, and the result.
//!
//! The result is the lines of the layout (see `listed`), or a refusal, as NUMBER@OFFSET, where the first record is at 0. The
//! results are those of the plain program in tests/reference, from the same records in a whole file.

/// The rows.
pub const ROWS: &str = "\
relative-repetition-counts-from-the-first-copy | 0E0141 10 147F01000A140A0E02011E 1410C801 | unit 1000/1;cell A;1 rectangle 1 0 10 20 5 7;1 rectangle 1 0 10 20 35 7;1 rectangle 1 0 10 20 65 7;1 rectangle 1 0 10 20 105 7;
four-equal-rectangles-stay-four | 0E0141 147F01000A1400000100000000 | unit 1000/1;cell A;4 rectangle 1 0 10 20 0 0;
two-raised-to-24-copies-on-one-place | 0E0141 147F01000A14000001FE1FFE1F0000 | unit 1000/1;cell A;16777216 rectangle 1 0 10 20 0 0;
three-columns-on-each-of-two-places | 0E0141 147F01000A1400000101000007 | unit 1000/1;cell A;3 rectangle 1 0 10 20 0 0;3 rectangle 1 0 10 20 0 7;
two-rows-on-each-of-three-places | 0E0141 147F01000A140000010100 0A00 | unit 1000/1;cell A;2 rectangle 1 0 10 20 0 0;2 rectangle 1 0 10 20 10 0;2 rectangle 1 0 10 20 20 0;
slanted-with-one-step-of-zero | 0E0141 147F01000A14000008 0100 00 0904 | unit 1000/1;cell A;3 rectangle 1 0 10 20 0 0;3 rectangle 1 0 10 20 2 2;
last-repetition-again | 0E0141 147F01000A14000002001E 14140E00 | unit 1000/1;cell A;1 rectangle 1 0 10 20 0 0;1 rectangle 1 0 10 20 7 0;1 rectangle 1 0 10 20 30 0;1 rectangle 1 0 10 20 37 0;
first-repetition-is-the-last-one | 0E0141 147F01000A14000000 | 18@3
repetition-forgotten-at-a-cell | 0E0141 147F01000A14000002001E 0E0142 147F01000A14000000 | 18@17
layer-forgotten-at-a-cell | 0E0141 147B01000A140000 0E0142 147A000A140000 | 18@14
position-and-mode-forgotten-at-a-cell | 0E0141 10 147B01000A140A0A 14100A 0E0142 147B01000A140202 141006 | unit 1000/1;cell A;1 rectangle 1 0 10 20 5 5;1 rectangle 1 0 10 20 10 5;cell B;1 rectangle 1 0 10 20 1 1;1 rectangle 1 0 10 20 3 1;
square | 0E0141 14DB01000A0000 | unit 1000/1;cell A;1 rectangle 1 0 10 10 0 0;
square-of-the-last-width | 0E0141 147B01000A140000 149028 14083C | unit 1000/1;cell A;1 rectangle 1 0 10 10 20 0;1 rectangle 1 0 10 10 20 30;1 rectangle 1 0 10 20 0 0;
extension-stays-the-number-that-it-was | 0E0141 16FB0100050A040129000000 16480928 | unit 1000/1;cell A;1 path 1 0 5 5 5 0,0 10,0;1 path 1 0 9 5 5 0,20 10,20;
placement-by-a-number-named-later | 0E0141 11F007280A 0E0142 04014207 0401430A | unit 1000/1;cell A;1 placement B 20 5 0 0;cell B;
text-by-a-number-named-later | 0E0141 137B0103000204 050141 05024869 | unit 1000/1;cell A;1 text 3 0 1 2 Hi;
cells-by-number-and-a-text-by-itself | 0D01 135B02486903000000 0D00 1B3B0100050000 1B3B0100050000 030142 030141 | unit 1000/1;cell A;1 text 3 0 0 0 Hi;cell B;2 circle 1 0 5 0 0;
each-class-has-its-own-numbers | 030141 06014205 030143 06014409 0D00 11F0010000 137B0903000000 | unit 1000/1;cell A;1 placement C 0 0 0 0;1 text 3 0 0 0 D;
cell-after-a-name | 0E0141 030142 0E0143 1B3B0100050000 | unit 1000/1;cell A;cell C;1 circle 1 0 5 0 0;
box-is-a-polygon | 0E0141 153B0100000214280000 | unit 1000/1;cell A;1 polygon 1 0 0,0 0,20 10,20 10,0;
flipped-and-turned-by-quarters | 0E0141 11B501420A03 11270B | unit 1000/1;cell A;1 placement B -5 -1 3 1;1 placement B 5 -1 2 1;
turned-by-450-degrees | 0E0141 12B6014204020200C2030000 | unit 1000/1;cell A;1 placement B 0 0 1 0;
nothing | 00 0F 10 | unit 1000/1;
numbering-mixed | 030141 04014205 | 21@3
numbering-of-text-strings-mixed | 06014105 050142 | 21@4
names-are-counted-from-0 | 0E0143 11F0000000 11F0010000 11F0020000 030141 030142 030141 | unit 1000/1;cell C;2 placement A 0 0 0 0;1 placement B 0 0 0 0;
numbers-as-they-are-given | 0E0143 11F0FFFFFFFFFFFFFFFFFF010000 11F0050000 11F0000000 040141FFFFFFFFFFFFFFFFFF01 04014105 04014105 04014200 | unit 1000/1;cell C;2 placement A 0 0 0 0;1 placement B 0 0 0 0;
counted-behind-the-last-name | 0E0143 11F0030000 030141 030142 030141 | 26@17
not-among-the-numbers-given | 0E0143 11F0010000 040141FFFFFFFFFFFFFFFFFF01 04014105 04014200 | 26@29
given-after-counted | 030141 030142 030141 04014201 | 21@9
counted-after-given | 04014105 030142 | 21@4
number-twice | 04014105 04014205 | 22@4
number-twice-alike | 04014105 04014105 | unit 1000/1;
mixed-before-twice | 030141 04014200 | 21@3
cell-without-a-name | 0D07 | 26@2
placement-without-a-name | 0E0141 11F0070000 030141 | 26@11
text-without-a-string | 0E0141 137B0003000000 030141 | 26@13
cell-by-name-and-by-number | 0E0141 0D00 030141 | 27@8
without-a-name-before-cell-twice | 0E0141 0E0141 0D07 | 26@8
rectangle-outside-a-cell | 147B01000A140000 | 13@0
placement-after-a-cell-name | 0E0141 030142 11B001420000 | 13@6
turned-placement-after-a-text-string | 0E0141 050142 12800142 | 13@6
text-outside-a-cell | 1300 | 13@0
polygon-outside-a-cell | 1500 | 13@0
path-outside-a-cell | 1600 | 13@0
circle-outside-a-cell | 1B00 | 13@0
magnified-twice | 0E0141 12B60142000200C2030000 | 19@3
magnification-before-angle | 0E0141 12B601420002002D0000 | 19@3
turned-by-45-degrees | 0E0141 12B6014204020202002D0000 | 20@3
right-corner-past-the-grid | 0E0141 147B0100010080808080808080802000 | 23@3
last-copy-past-the-grid | 0E0141 147F01000100000002008080808080808080 10 | 23@3
relative-step-past-the-grid | 0E0141 10 147B0100000080808080808080802000 141002 | 23@20
layer-undefined-before-the-grid | 0E0141 147A00010080808080808080802000 | 18@3
too-many-before-the-grid | 0E0141 147F01000A14808080808080808020 00 01FE1FFF1F0000 | 24@3
";
