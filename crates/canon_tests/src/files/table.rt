//! Files, one a line: a name, a file in pieces, and the result for it: `canonical`, `other`, or a refusal as NUMBER@OFFSET;
//! where the profiles differ, by profile one and then by profile two. The results were worked out by hand from the rules in
//! docs/.

/// The rows.
pub const ROWS: &str = "\
# canonical
no-cells | HEAD TAIL | canonical
empty-cell | HEAD CELL TAIL | canonical
rectangle | HEAD CELL RECT TAIL | canonical
copies-stand-side-by-side | HEAD CELL RECT RECT RECT TAIL | canonical
ascending-rectangles | HEAD CELL RECT 147B02000A140000 TAIL | canonical
ascending-names | HEAD CELL RECT 0E0142 RECT 0E024242 TAIL | canonical
elements-begin-anew-in-each-cell | HEAD CELL 147B02000A140000 0E0142 RECT TAIL | canonical
square-of-two-sides | HEAD CELL 147B01000A0A0000 TAIL | canonical
placement-text-rectangle | HEAD CELL 11B001420000 135B02486903000000 RECT TAIL | canonical
triangle | HEAD CELL 153B01000402012829290000 TAIL | canonical
triangle-the-other-way-round | HEAD CELL 153B0100040229002B280000 TAIL | other
box-of-a-polygon | HEAD CELL BOX TAIL | canonical | other
# series of elements of one kind
series-of-four-kinds | HEAD CELL 11B001420000 11B001420002 135B02486903000000 135B02486903000002 RECT RECT 153B01000402012829290000*2 TAIL | canonical
series-in-each-cell | HEAD CELL RECT RECT 0E0142 RECT RECT TAIL | canonical
series-that-descends | HEAD CELL RECT RECT 147B00000A140000 RECT TAIL | other
series-before-a-modal-layer | HEAD CELL RECT RECT 147A000A140000 TAIL | other
series-that-is-cut-off | HEAD CELL RECT RECT 147B | 2@53
# names
equal-names | HEAD CELL CELL TAIL | 27@40
descending-names | HEAD 0E0142 CELL TAIL | other
name-that-goes-on-before-its-front | HEAD 0E024141 CELL TAIL | other
cell-by-number | HEAD 030141 0D00 RECT TAIL | other
name-record-that-nothing-uses | HEAD 030141 CELL RECT TAIL | other
text-string-record | HEAD 050141 CELL RECT TAIL | other
name-record-behind | HEAD CELL RECT 030142 TAIL | other
# order
descending-rectangles | HEAD CELL 147B02000A140000 RECT TAIL | other
rectangle-before-a-placement | HEAD CELL RECT 11B001420000 TAIL | other
copies-apart | HEAD CELL RECT 147B02000A140000 RECT TAIL | other
# spelling of records
pad | HEAD CELL RECT 00 TAIL | other
pad-before-cells | HEAD 00 CELL RECT TAIL | other
pad-before-end | HEAD CELL RECT 00 TAIL | other
xy-absolute | HEAD CELL 0F RECT TAIL | other
xy-relative | HEAD CELL 10 RECT TAIL | other
long-id | HEAD CELL 94007B01000A140000 TAIL | other
long-width | HEAD CELL 147B01008A00140000 TAIL | other
long-name | HEAD 0E810041 RECT TAIL | other
square | HEAD CELL 14DB01000A0000 TAIL | other
repetition-of-two | HEAD CELL 147F01000A140000020028 TAIL | other
modal-layer | HEAD CELL RECT 147A000A140000 TAIL | other
modal-x | HEAD CELL 146B01000A1400 TAIL | other
placement-of-degrees | HEAD CELL 12B0014200000000 TAIL | other
minus-zero-x | HEAD CELL 147B01000A140100 TAIL | other
# START and END
version-spelled-long | MAGIC 018300312E30 00E807 00*13 TAIL | other
unit-spelled-long | MAGIC START 00E88700 00*13 TAIL | other
unit-as-a-ratio | MAGIC START 04D00F02 00*13 TAIL | other
offsets-of-another-value | MAGIC START 00E807 00 0509*6 TAIL | other
offsets-in-end | MAGIC START 00E807 01 02 00*12 F001 00*240 00 | other
end-with-other-padding | HEAD 02FC01 20*252 00 | other
end-spelled-long | HEAD 02FB8100 00*251 00 | other
# refusals
empty | 26 | 1@0
cut-off | HEAD CELL RECT | 2@45
cut-off-in-a-record | HEAD CELL 147B | 2@37
byte-behind-end | HEAD TAIL 00 | 30@290
left-out-behind-a-pad | HEAD CELL 00 22 TAIL | 11@38
number-without-a-name | HEAD CELL 11F0000000 TAIL | 26@42
";
