//! Laws of the numbers of names, from the definitions alone. A class of name records is a function `given`: for a record of
//! the class it returns the string and the number that the record gives, for any other record None.

ghost use Rattle.std.specs.Prelude.{◌≡◌, ◌↔◌, ◌⊎◌, ◌||◌, IsTrue, ℕ, List, [], Option, None};
ghost use Rattle.oas_record.specs.declared.records.Record.{Record as OneRecord};
ghost use Rattle.oas_record.specs.declared.records.Record.TheVariants as record_of;
ghost use Rattle.oas_record.specs.declared.references.CellRef.{CellRef};
ghost use Rattle.oas_record.specs.declared.references.TextRef.{TextRef};
ghost use Rattle.oas_reader.specs.Names.{Table, TableRepresents, no_names, cell_names, text_strings, named, same_string};
ghost use Rattle.oas_reader.specs.References.{cell_by, string_by, cell_used, string_used, uses_unknown, lacks_name};
ghost use Rattle.oas_reader.specs.Laws.NameLaws.{RefusesAsRecords, StandsForMore, NumberingIsOfEach, StringIsGiven, NoStringIsGiven, MixedWhere, TwiceWhere, AllowedPrefix, NamesStay, UsesUnknown};

use oas_num::{Label, Name};

/// A table of no names represents no records.
pub fn no_records()
    ensures { (given : OneRecord → Option (List ℕ × Option ℕ)) → TableRepresents given no_names [] }
{}

/// A table refuses what the records that it represents refuse, and represents one more once it has taken it; a record that
/// isn't of its class changes nothing.
pub fn one_more_record()
    ensures reason { (given : OneRecord → Option (List ℕ × Option ℕ)) → RefusesAsRecords given }
    ensures stands { (given : OneRecord → Option (List ℕ × Option ℕ)) → StandsForMore given }
{}

/// In records that are allowed, each number has one string, and all have one numbering.
pub fn one_string()
    ensures numbering { (given : OneRecord → Option (List ℕ × Option ℕ)) → NumberingIsOfEach given }
    ensures string { (given : OneRecord → Option (List ℕ × Option ℕ)) → StringIsGiven given }
    ensures none { (given : OneRecord → Option (List ℕ × Option ℕ)) → NoStringIsGiven given }
{}

/// Of records that are allowed, the first ones are allowed, and what they name is named by all.
pub fn further_records()
    ensures front { (given : OneRecord → Option (List ℕ × Option ℕ)) → AllowedPrefix given }
    ensures stay { (given : OneRecord → Option (List ℕ × Option ℕ)) → NamesStay given }
{}

/// Which name records are refused, and why.
pub fn refused_names()
    ensures mixed { (given : OneRecord → Option (List ℕ × Option ℕ)) → MixedWhere given }
    ensures twice { (given : OneRecord → Option (List ℕ × Option ℕ)) → TwiceWhere given }
{}

/// Cell names and text strings are independent of each other.
pub fn two_classes()
    ensures cells { (label : List ℕ) (number : Option ℕ) → cell_names (record_of.TextString label number) ≡ None }
    ensures texts { (name : List ℕ) (number : Option ℕ) → text_strings (record_of.CellName name number) ≡ None }
{}

/// A reference means the same by a table as by the records that it represents.
pub fn same_references()
    ensures cells { (t : Table (List ℕ)) (rs : List OneRecord) (cell : CellRef) → TableRepresents cell_names t rs → cell_by t.named cell ≡ cell_by (named cell_names rs) cell }
    ensures texts { (t : Table (List ℕ)) (rs : List OneRecord) (text : TextRef) → TableRepresents text_strings t rs → string_by t.named text ≡ string_by (named text_strings rs) text }
{}

/// A name is missing exactly if some record uses a number, for a cell or a text string, that no record of its class gives to
/// a string; and it is missing in the tables that represent the records.
pub fn lacking_names()
    ensures used { (rs : List OneRecord) → IsTrue (lacks_name rs) ↔ (UsesUnknown cell_used cell_names rs ⊎ UsesUnknown string_used text_strings rs) }
    ensures tables { (cells strings : Table (List ℕ)) (rs : List OneRecord) → TableRepresents cell_names cells rs → TableRepresents text_strings strings rs →
        uses_unknown cell_used cells.named rs || uses_unknown string_used strings.named rs ≡ lacks_name rs }
{}

/// Cell names and text strings are compared by `same_string`, which says whether they are equal.
pub fn string_test()
    ensures names { (a b : List ℕ) → ⟦<Name as PartialEq>⟧.eq a b ≡ same_string a b }
    ensures labels { (a b : List ℕ) → ⟦<Label as PartialEq>⟧.eq a b ≡ same_string a b }
    ensures exact { (a b : List ℕ) → IsTrue (same_string a b) ↔ (a ≡ b) }
{}
