//! The worked rows, one a line: a name, a file, and the result.
//!
//! A file is a list of pieces. A piece is bytes in hex, or such bytes and how often they are repeated, as `00*252`, or a word
//! for bytes that many rows have (see `rows`): HEAD is MAGIC, START, a unit of 1000 and OFFSETS; TAIL is the canonical END;
//! CELL begins a cell `A`; RECT is a rectangle. `-` is no byte at all.
//!
//! The result is a refusal, as NUMBER@OFFSET, or the canonical file, or `same` where the file is canonical. The results were
//! worked out by hand from the rules in docs/, never taken from the program.

/// The rows, by what they are about.
pub const ROWS: &str = "\
# structure
no-cells | HEAD TAIL | same
rectangle-alone | HEAD CELL RECT TAIL | same
version-one-point-one | MAGIC 0103312E31 00E807 OFFSETS TAIL | 9@13
offset-flag-two | MAGIC START 00E807 02 00*12 TAIL | 10@13
first-byte-wrong | 26 | 1@0
first-byte-wrong-in-a-whole-file | 26 53454D492D4F415349530D0A START 00E807 OFFSETS TAIL | 1@0
first-record-is-not-the-start | MAGIC 22 | 13@13
second-start | HEAD 01 | 13@34
rectangle-outside-a-cell | HEAD RECT TAIL | 13@34
pads-dropped | HEAD CELL 0000 RECT TAIL | HEAD CELL RECT TAIL
wrong-before-it-is-short | 2554 | 1@0
short-and-right | 2553 | 2@0
the-last-magic-byte-wrong | 2553454D492D4F415349530D 0D | 1@0
first-record-is-a-pad | MAGIC 00 | 13@13
first-record-is-the-end | MAGIC 02 | 13@13
first-record-is-left-out-elsewhere | MAGIC 07 | 13@13
first-record-is-unknown-elsewhere | MAGIC 64 | 13@13
first-record-has-no-integer | MAGIC FF*9 02 | 3@13
version-with-a-bad-byte | MAGIC 0103321F30 | 4@13
version-empty | MAGIC 0100 | 9@13
version-too-long | MAGIC 0104312E3030 | 9@13
version-cut-short | MAGIC 0103312E | 2@13
version-of-false-length | MAGIC 01FFFFFF7F | 2@13
offset-flag-very-large | MAGIC START 00E807 FF*9 01 00*12 TAIL | 10@13
table-offsets-of-any-value | MAGIC START 00E807 00 0509*6 TAIL | HEAD TAIL
start-spelled-long | MAGIC 81008300312E30 8000E88700 8000 00*12 TAIL | HEAD TAIL
second-start-in-a-cell | HEAD CELL RECT 01 | 13@45
second-start-spelled-long | HEAD 8100 | 13@34
rectangle-outside-a-cell-cut-short | HEAD 147B01 | 2@34
bad-info-outside-a-cell | HEAD 14A0 TAIL | 14@34
far-rectangle-outside-a-cell | HEAD 147B0100 FF*9 01140000 TAIL | 13@34
pads-everywhere | HEAD 0000 CELL 00 RECT 8000 RECT 00 TAIL | HEAD CELL RECT RECT TAIL
respelled-example | MAGIC 018300312E30 04D00F02 00 0140 0100*5 0000 0E810041 00 94007B0180008A00140100 00 02FB8100 20*251 00 | HEAD CELL RECT TAIL
# integers
overlong-width-and-minus-zero | HEAD CELL 147B01008A00140100 TAIL | HEAD CELL RECT TAIL
width-goes-on-after-ten-bytes | HEAD CELL 147B01008A 80*9 00140100 TAIL | 3@37
width-with-tenth-byte-two | HEAD CELL 147B0100 FF*9 02140100 TAIL | 3@37
cell-and-rectangle-spelled-long | HEAD 8E00810041 94007B 818000 80808000 8A00 948000 8000 8100 TAIL | HEAD CELL RECT TAIL
ten-bytes-for-ten | HEAD CELL 147B0100 8A 80*8 00140000 TAIL | HEAD CELL RECT TAIL
layer-of-ten-bytes-and-two | HEAD CELL 147B 80*9 02 000A140000 TAIL | 3@37
y-goes-on | HEAD CELL 147B01000A1400 80*10 00 TAIL | 3@37
record-id-goes-on | HEAD 80*10 00 TAIL | 3@34
record-id-of-ten-bytes-and-two | HEAD CELL FF*9 02 TAIL | 3@37
name-length-goes-on | HEAD 0E 80*10 TAIL | 3@34
# limits
width-of-all-ones-passes-the-far-corner | HEAD CELL 147B0100 FF*9 01140100 TAIL | 23@37
at-the-right-edge | HEAD CELL 147B01000000 80*8 2000 TAIL | same
right-corner-past-the-edge | HEAD CELL 147B01000100 80*8 2000 TAIL | 23@37
x-past-the-right-edge | HEAD CELL 147B01000000 82 80*7 2000 TAIL | 23@37
x-past-the-left-edge | HEAD CELL 147B01000100 83 80*7 2000 TAIL | 23@37
at-the-upper-edge | HEAD CELL 147B0100000000 80*8 20 TAIL | same
upper-corner-past-the-edge | HEAD CELL 147B0100000100 80*8 20 TAIL | 23@37
y-past-the-lower-edge | HEAD CELL 147B0100000100 83 80*7 20 TAIL | 23@37
as-wide-as-can-be | HEAD CELL 147B0100 80*8 20 00 81 80*7 20 00 TAIL | same
wider-than-can-be | HEAD CELL 147B0100 81 80*7 20 00 81 80*7 20 00 TAIL | 23@37
as-high-as-can-be | HEAD CELL 147B010000 80*8 20 00 81 80*7 20 TAIL | same
higher-than-can-be | HEAD CELL 147B010000 81 80*7 20 00 81 80*7 20 TAIL | 23@37
a-far-corner-that-would-wrap | HEAD CELL 147B0100 FF*9 01 00 81 80*7 20 00 TAIL | 23@37
a-coordinate-of-all-ones | HEAD CELL 147B01000000 FF*9 0100 TAIL | 23@37
layers-and-datatypes-have-no-limit | HEAD CELL 147B FF*9 01 FF*9 01 0A140000 TAIL | same
# units
unit-2000-over-2 | MAGIC START 04D00F02 OFFSETS TAIL | HEAD TAIL
unit-one-fifth | MAGIC START 0205 OFFSETS TAIL | same
unit-three-halves | MAGIC START 040302 OFFSETS TAIL | same
unit-with-denominator-zero | MAGIC START 04D00F00 OFFSETS TAIL | 8@13
unit-zero | MAGIC START 0000 OFFSETS TAIL | 8@13
unit-negative | MAGIC START 050101 OFFSETS TAIL | 8@13
unit-as-float | MAGIC START 07 OFFSETS TAIL | 6@13
unit-as-short-float | MAGIC START 06 OFFSETS TAIL | 6@13
unit-of-unknown-type | MAGIC START 08 OFFSETS TAIL | 7@13
unit-one-over-one | MAGIC START 0401 01 OFFSETS TAIL | MAGIC START 0001 OFFSETS TAIL
unit-one-over-one-by-its-inverse | MAGIC START 0201 OFFSETS TAIL | MAGIC START 0001 OFFSETS TAIL
unit-six-quarters | MAGIC START 040604 OFFSETS TAIL | MAGIC START 040302 OFFSETS TAIL
unit-three-sixths | MAGIC START 040306 OFFSETS TAIL | MAGIC START 0202 OFFSETS TAIL
unit-spelled-long | MAGIC START 840086008400 OFFSETS TAIL | MAGIC START 040302 OFFSETS TAIL
unit-as-large-as-can-be | MAGIC START 00 FF*9 01 OFFSETS TAIL | same
unit-as-small-as-can-be | MAGIC START 02 FF*9 01 OFFSETS TAIL | same
unit-of-equal-large-parts | MAGIC START 04 FF*9 01 FF*9 01 OFFSETS TAIL | MAGIC START 0001 OFFSETS TAIL
unit-of-large-parts | MAGIC START 04 FF*9 01 FE FF*8 01 OFFSETS TAIL | same
unit-minus-five | MAGIC START 0105 OFFSETS TAIL | 8@13
unit-minus-one-fifth | MAGIC START 0305 OFFSETS TAIL | 8@13
unit-minus-zero | MAGIC START 0100 OFFSETS TAIL | 8@13
unit-one-over-zero | MAGIC START 0200 OFFSETS TAIL | 8@13
unit-zero-over-five | MAGIC START 040005 OFFSETS TAIL | 8@13
unit-zero-over-zero | MAGIC START 040000 OFFSETS TAIL | 8@13
unit-of-type-all-ones | MAGIC START FF*9 01 OFFSETS TAIL | 7@13
unit-of-no-integer | MAGIC START 00 FF*9 02 OFFSETS TAIL | 3@13
unit-zero-read-whole-first | MAGIC START 0400 | 2@13
# ends
end-one-byte-short | HEAD 02FB01 00*251 00 | 28@34
end-one-byte-long | HEAD 02FD01 00*253 00 | 28@34
byte-after-end | HEAD TAIL 00 | 30@290
end-with-checksum-scheme | HEAD 02F801 00*248 0112345678 | 29@34
byte-after-the-rectangle-file | HEAD CELL RECT TAIL 00 | 30@301
padding-of-other-bytes | HEAD 02FC01 78*252 00 | HEAD TAIL
end-id-spelled-long | HEAD 8200FB01 00*251 00 | HEAD TAIL
padding-length-spelled-long | HEAD 02FB8100 00*251 00 | HEAD TAIL
scheme-spelled-long | HEAD 02FB01 00*251 8000 | HEAD TAIL
scheme-two | HEAD 02F801 00*248 0212345678 | 29@34
scheme-of-no-integer | HEAD 0200 FF*9 02 | 3@34
end-of-the-other-layout | HEAD 02 00*12 F001 00*240 00 | 28@34
padding-claims-one-byte-more | HEAD 02FD01 00*253 | 2@34
padding-claims-more-than-an-end | HEAD 028004 00*200 | 2@34
a-second-end | HEAD TAIL TAIL | 30@290
# truncation
empty-input | - | 2@0
# refusals
compressed-block | HEAD CELL 22 TAIL | 11@37
unknown-record | HEAD CELL 23 TAIL | 12@37
space-in-a-cell-name | HEAD 0E0120 TAIL | 4@34
empty-cell-name | HEAD 0E00 TAIL | 5@34
square-with-a-height | HEAD CELL 14FB TAIL | 14@37
left-out-record-id-7 | HEAD CELL 07 TAIL | 11@37
left-out-record-id-8 | HEAD CELL 08 TAIL | 11@37
left-out-record-id-9 | HEAD CELL 09 TAIL | 11@37
left-out-record-id-10 | HEAD CELL 0A TAIL | 11@37
left-out-record-id-11 | HEAD CELL 0B TAIL | 11@37
left-out-record-id-12 | HEAD CELL 0C TAIL | 11@37
left-out-record-id-23 | HEAD CELL 17 TAIL | 11@37
left-out-record-id-24 | HEAD CELL 18 TAIL | 11@37
left-out-record-id-25 | HEAD CELL 19 TAIL | 11@37
left-out-record-id-26 | HEAD CELL 1A TAIL | 11@37
left-out-record-id-28 | HEAD CELL 1C TAIL | 11@37
left-out-record-id-29 | HEAD CELL 1D TAIL | 11@37
left-out-record-id-30 | HEAD CELL 1E TAIL | 11@37
left-out-record-id-31 | HEAD CELL 1F TAIL | 11@37
left-out-record-id-32 | HEAD CELL 20 TAIL | 11@37
left-out-record-id-33 | HEAD CELL 21 TAIL | 11@37
scheme-before-length-of-end | HEAD 020001 | 29@34
left-out-record-id-34-before-a-cell | HEAD 22 TAIL | 11@34
left-out-record-id-spelled-long | HEAD CELL A200 TAIL | 11@37
unknown-record-128 | HEAD 8001 TAIL | 12@34
unknown-record-of-all-ones | HEAD FF*9 01 TAIL | 12@34
delete-in-a-cell-name | HEAD 0E017F TAIL | 4@34
byte-above-ascii-in-a-cell-name | HEAD 0E0180 TAIL | 4@34
space-at-the-end-of-a-cell-name | HEAD 0E024120 TAIL | 4@34
bad-byte-before-the-end-of-input | HEAD 0E054120 | 4@34
empty-cell-name-spelled-long | HEAD 0E8000 TAIL | 5@34
first-and-last-letters-of-a-cell-name | HEAD 0E0221 7E TAIL | same
the-first-refused-record-decides | HEAD CELL 147B0100 FF*9 01140000 22 TAIL | 23@37
# records
compact-writer-file | MAGIC START 00E80701 0D01 14DB01000A0000 141028 0D00 11F8010000010000 3232 137B0003000000 0403544F50 00 04014101 0602486900 02 00*12 F001 00*240 00 | HEAD CELL 147B01000A0A0000 147B01000A0A2800 0E03544F50 11B001410000 11B001410064 11B001416400 11B001416464 135B02486903000000 TAIL
a-name-after-its-use | HEAD 0D00 RECT 030141 TAIL | HEAD CELL RECT TAIL
a-square | HEAD CELL 14DB01000A0000 TAIL | HEAD CELL 147B01000A0A0000 TAIL
relative-x-counts-from-the-first-copy | HEAD CELL 10 147F01000A140A0E02011E 1410C801 TAIL | HEAD CELL 147B01000A140A0E 147B01000A14460E 147B01000A1482010E 147B01000A14D2010E TAIL
coincident-copies-stay | HEAD CELL 147F01000A14000001000000 00 TAIL | HEAD CELL RECT RECT RECT RECT TAIL
no-repetition-from-another-cell | HEAD CELL 147F01000A14000002001E 0E0142 147F01000A14000000 TAIL | 18@51
ring-of-type-0 | HEAD CELL 153B0100000214280000 TAIL | HEAD CELL RECT TAIL
ring-of-type-1 | HEAD CELL 153B0100010228140000 TAIL | HEAD CELL RECT TAIL
ring-backwards | HEAD CELL 153B01000403C602A401C2021428 TAIL | HEAD CELL RECT TAIL
ring-twice-through-its-least-point | HEAD CELL 153B01000405090207020705050609050000 TAIL | HEAD CELL 153B01000405050405030B030D020B040000 TAIL
ring-its-own-reverse | HEAD CELL 153B010002030606040400 TAIL | HEAD CELL 153B0100040305000500070000 00 TAIL
changes-of-displacements | HEAD CELL 153B01000503A00100AA010000 TAIL | HEAD CELL 153B010004032900290001140000 TAIL
magnification-and-angle | HEAD CELL 12B60142040202 00C203 0000 TAIL | HEAD CELL 11B201420000 TAIL
angle-minus-90 | HEAD CELL 12B60142040202 015A 0000 TAIL | HEAD CELL 11B601420000 TAIL
angle-45 | HEAD CELL 12B60142040202 002D 0000 TAIL | 20@37
magnification-2 | HEAD CELL 12B601420002 002D 0000 TAIL | 19@37
turned-and-flipped | HEAD CELL 11B301420000 11B401420000 TAIL | same
mixed-numbering | HEAD 030141 04014205 TAIL | 21@37
two-strings-of-one-number | HEAD 04014105 04014205 TAIL | 22@38
one-string-twice | HEAD 04014105 04014105 TAIL | HEAD TAIL
number-without-a-name | HEAD 0D07 TAIL | 26@36
one-name-by-number-too | HEAD CELL 0D00 030141 TAIL | 27@42
element-after-a-name-record | HEAD CELL 030142 RECT TAIL | 13@40
path-at-the-edge | HEAD CELL 16FB0100050F00000400 80*8 2000 TAIL | same
path-past-the-edge | HEAD CELL 16FB0100050F00000400 82 80*7 2000 TAIL | 23@37
extension-stays-a-number | HEAD CELL 16FB0100050A040129000000 16480928 TAIL | HEAD CELL 16FB0100050F0A0A040129000000 16FB0100090F0A0A040129000028 TAIL
extension-undefined | HEAD CELL 16FB01000500040000 00 TAIL | 18@37
extension-scheme-16 | HEAD CELL 16FB01000510 TAIL | 14@37
grid-of-two | HEAD CELL 147F010002020000 0B010509000900 TAIL | HEAD CELL 147B010002020000 147B010002021400 147B010002022800 TAIL
repetition-type-12 | HEAD CELL 147F010002020000 0C TAIL | 17@37
a-square-with-a-height | HEAD CELL 14FB TAIL | 14@37
circle-with-a-zero-bit | HEAD CELL 1B7B TAIL | 14@37
point-list-type-6 | HEAD CELL 153B010006 TAIL | 15@37
polygon-of-three-deltas-type-0 | HEAD CELL 153B01000003 TAIL | 16@37
polygon-of-one-delta | HEAD CELL 153B01000401 TAIL | 16@37
too-many-copies | HEAD CELL 147F01000A14000001 FF1F FE1F 0000 TAIL | 24@37
copies-too-heavy | HEAD CELL 16FF0100050F0000000F 00*15 0000 01 FE1F FE1F 0000 TAIL | 25@37
# boxes
box-after-its-rectangle | HEAD CELL RECT 153B0100000214280000 TAIL | HEAD CELL RECT RECT TAIL
box-in-each-reading | HEAD CELL 153B010004030128290001290000 153B0100040329000129 2B000028 153B01000403 01292B0001281428 153B01000403 2B00012829001400 153B01000403 290001282B000000 153B01000403 01282B0001291400 153B01000403 2B00012929001428 153B01000403 0129290001280028 TAIL | HEAD CELL RECT RECT RECT RECT RECT RECT RECT RECT TAIL
box-among-other-kinds | HEAD CELL 153B0200000214280000 1B3B0100050000 RECT TAIL | HEAD CELL RECT 147B02000A140000 1B3B0100050000 TAIL
box-as-large-as-can-be | HEAD CELL 153B01000002 80*8 40 80*8 40 81 80*7 20 81 80*7 20 TAIL | HEAD CELL 147B0100 80*8 20 80*8 20 81 80*7 20 81 80*7 20 TAIL
box-past-the-edge | HEAD CELL 153B01000002 80*8 40 80*8 40 81 80*7 20 00 TAIL | 23@37
corners-in-crossing-order | HEAD CELL 153B0100040301282929012800 00 TAIL | same
four-corners-one-of-them-twice | HEAD CELL 153B010004030100012829000000 TAIL | same
all-corners-and-one-of-them-twice | HEAD CELL 153B0100040401000128290001290000 TAIL | same
zero-width | HEAD CELL 153B010004030100012801000000 TAIL | same
one-point-more-on-a-side | HEAD CELL 153B0100040401140114290001290000 TAIL | same
four-corners-askew | HEAD CELL 153B010004030128290029290000 TAIL | same
# order
cells-put-in-order | HEAD 0E0142 RECT CELL TAIL | HEAD CELL 0E0142 RECT TAIL
elements-put-in-order | HEAD CELL 147B02000A140000 RECT TAIL | HEAD CELL RECT 147B02000A140000 TAIL
four-equal-rectangles | HEAD CELL RECT RECT RECT RECT TAIL | same
names-by-bytes-and-prefixes | HEAD 0E0142 0E024141 RECT CELL TAIL | HEAD CELL 0E024141 RECT 0E0142 TAIL
an-empty-cell-stays | HEAD CELL TAIL | same
long-name | HEAD 0EAC02 41*300 RECT TAIL | same
each-field-decides | HEAD CELL 147B020000000000 147B010100000000 147B010001000000 147B010000010000 147B010000000200 147B010000000002 147B010000000000 147B010000000003 147B010000000300 TAIL | HEAD CELL 147B010000000300 147B010000000003 147B010000000000 147B010000000002 147B010000000200 147B010000010000 147B010001000000 147B010100000000 147B020000000000 TAIL
by-value-not-by-bytes | HEAD CELL 147B8002000A140000 147B8101000A140000 TAIL | HEAD CELL 147B8101000A140000 147B8002000A140000 TAIL
layers-without-a-sign | HEAD CELL 147B FF*9 01 000A140000 147B 80*9 01 000A140000 RECT TAIL | HEAD CELL RECT 147B 80*9 01 000A140000 147B FF*9 01 000A140000 TAIL
equal-ones-that-stand-apart | HEAD CELL RECT 147B02000A140000 RECT 147B02000A140000 TAIL | HEAD CELL RECT RECT 147B02000A140000 147B02000A140000 TAIL
one-cell-after-another | HEAD 0E0142 RECT 147B00000A140000 CELL 147B02000A140000 RECT TAIL | HEAD CELL RECT 147B02000A140000 0E0142 147B00000A140000 RECT TAIL
# names
cell-defined-twice | HEAD CELL CELL TAIL | 27@40
cell-defined-twice-with-one-between | HEAD CELL 0E0142 CELL TAIL | 27@43
cell-defined-twice-and-a-bad-record | HEAD CELL CELL RECT 14FB TAIL | 14@48
cell-defined-twice-and-a-byte-more | HEAD CELL CELL TAIL 00 | 30@296
# false-counts
cell-name-length-false | HEAD 0E FF*9 0141 | 2@34
padding-length-false | HEAD 02 FF*9 01 | 2@34
";
