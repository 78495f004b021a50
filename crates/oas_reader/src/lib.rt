//! From records to cells: a reader takes record after record, with the names of numbers and a store for each cell. At END
//! it hands these over to a crate that makes a layout of them, or decides whether END refuses them.
//!
//! What this crate promises to the crates above it:
//!
//! - A [`Reader`] takes record after record, with a store for each cell. It represents a list of records (`Represents`,
//!   specs/Stands.antt), and one more once that is taken. It refuses a record exactly where `refusal` says so, with the first
//!   reason that it gives. It fails out of memory only where that gives none, or says that a copy is outside the grid
//!   (`MayRunOut`). After a failure it returns the same one again. [`Reader::take_rectangle`] does the same for a rectangle
//!   without a repetition, and takes it without a record and without a loop over copies; [`Reader::take_named`] does it for a
//!   placement or a text at hand. Its name goes into the memory of the modal one, where that is enough, and a store copies it
//!   only where it keeps one ([`CellStore::draw_once`]). [`reader_laws`]: how one more record changes its state.
//! - A [`CellStore`] collects what the records of one CELL draw. Contracts see its CELL, how many elements were drawn, and
//!   which lists of what was drawn it may represent (`Store`, specs/Stores.antt); it may keep less than was drawn. One that
//!   is [`Weighed`] knows what its cell weighs with all names (`known_weight`, specs/Weights.antt).
//! - Several records that come to a series (`IsSeries`, specs/Series.antt) are taken at once: so many elements, with a weight together,
//!   are drawn in the last cell, and the modal variables are those after the last record alone. [`Reader::room`] says whether
//!   the open cell keeps no element ([`CellStore::COUNTS`]), and how much the limits still allow; within that
//!   [`Reader::take_series`] takes a series by its last record, and [`Reader::take_named_series`] one of placements or texts. That none
//!   of the records is refused is for the caller to show. A store draws the elements by [`CellStore::draw_series`] (`DrawsSeries`).
//! - [`Reader::hand_over`] returns what was taken ([`Taken`]; `HandsOver`, specs/Taken.antt): the names of numbers, and the
//!   stores of all cells, which are sound and have no more elements than the limits allow. [`accept_cells`] refuses such
//!   cells, of any [`Weighed`] stores, exactly where END does (`end_reason`, specs/Meaning.antt), with the first reason that
//!   it gives, or else fails out of memory.
//! - A [`CountedCell`] is a store that keeps no element: only counts, weights, and how often each number is used
//!   (specs/Counted.antt). So it makes no copies of a record: it only looks where they are ([`CellStore::draw_copy`]). The
//!   `finish_counting` of a reader with such cells accepts exactly the records that END doesn't refuse, and refuses others
//!   with `end_refusal`, or fails out of memory.
//! - [`laws`] says, from the definitions alone, that cells in which each thing is drawn as often are refused alike at END, and
//!   mean the same.
//! - A [`NameTable`] has the numbers that the name records of one class, CELLNAME or TEXTSTRING, give to strings. It
//!   refuses a record exactly where `table_reason` (specs/Names.antt) says so, with the first reason that it gives; it
//!   fails out of memory only where that gives none. A failure changes nothing. Afterwards it holds `with_name` of what it
//!   held before. It represents a list of records (`TableRepresents`) if it has their form, and names each number as they
//!   do: by [`name_laws`] it then refuses what the records refuse, and represents one more once that is taken.
//! - By the tables of the whole file a reference denotes a name, and what is drawn an element, or nothing where its number
//!   has no name (`cell_by`, specs/References.antt; `element_by`, specs/Meaning.antt). [`cell_meant`] returns the name of a
//!   CELL, [`head_weight`] its weight without its elements. What cells mean (`meaning_by`), and why END refuses them
//!   (`end_reason`), is defined there too.
//!
//! The modal variables, and what a record draws with them (`Drawn`), are those of `oas_drawing`.
//!
//! # How it is built
//!
//! - Definitions of names are over a list of records, newest first, and a function `given` that says which of them are name
//!   records of the class, with their string and number: `cell_names` and `text_strings` are the two. `form_of`,
//!   `next_number` and `named` look back over the list; `name_reason` is the first reason of a list. A number has the
//!   string of the latest record that names it; `name_laws::one_string` says that any other record would give the same.
//! - src/names.rt: one generic table. Strings whose numbers 0, 1, 2, .. come in this order are in a list, each at its
//!   number, and all others in an ordered map; contracts see one ascending list (`numbered`, specs/NamesInOrder.antt;
//!   proofs/NamesInOrder.antt says what looking up and inserting do to it). An implicit number is the number of entries.
//!   specs/Laws/NameLaws.antt has the statements of src/name_laws.rt; in them a record is at a split of the list
//!   (`HasValidName`, `HasForm`).
//! - How that is proved: the code against the table's own words (`table_reason`, `with_name`) by search, once `get` and
//!   `put` are proved from what proofs/NamesInOrder.antt says of the list and the map. That these are the records' words is
//!   proved over the definitions, in proofs/NameTables.antt and NameLemmas.antt: first for plain values of form, next
//!   number and names (`HasNames`, `more_named`), by what an insertion does to look-ups and length, and then for a list. As
//!   long as no record gives a number, the table has as many entries as there are implicit records, and no number from
//!   there on has a name. So the number of entries is the next number.
//! - specs/References.antt, Meaning.antt: what references and cells mean by the tables of the whole file (`cell_by`,
//!   `element_by`, `meaning_by`), over the lists of what is drawn, and why END refuses them (`end_reason`). src/meant.rt
//!   has the meaning of a single reference.
//! - specs/Weights.antt: weights with all names are sums capped to 64 bits (`capped`), which exceeds all limits, so no bound
//!   on the elements is required. proofs/WeightLemmas.antt says when such sums are known (`known`), and carries them through
//!   a loop (`Adding`); oas_cells uses it too.
//! - src/accepting.rt: END looks for numbers without a name, for names that occur twice (`names_twice`), and at the weight of
//!   all cells (`all_weight`). Where the names ascend, as in a canonical file, none occurs twice (proofs/Ascending.antt); else
//!   they are sorted, and two that are equal are neighbours (proofs/InOrder.antt). Beside each name is its front, the eight bytes after
//!   what all names begin with (src/fronts.rt), which decides most comparisons. It asks each cell for its weight alone, whatever that keeps. The weight of the cells is known
//!   from what was drawn in them (`all_known`, proofs/WeighLemmas.antt), and with it the reason (proofs/AcceptLemmas.antt).
//! - specs/Held.antt: what is drawn with counts, in ascending order; oas_cells keeps by it what waits for names.
//! - src/stores.rt, specs/Stores.antt: where what is drawn is collected (`CellStore`), as a trait whose ghost member `store`
//!   is what is known about a kind of stores. What a store may represent is a relation with lists of what was drawn, and no
//!   function, so that a store needn't keep what is drawn. The order in these lists makes no difference (the law `alike`).
//!   The trait's `requires` are about the number of elements alone, and what a change does to all lists is one record
//!   (`Draws`), which composes (`draws_then`, proofs/StoreLemmas.antt). A reader's stores correspond to the cells of the
//!   records one by one (`HoldCells`).
//! - src/counted.rt: `CountedCell`, a store that keeps no element: how many are drawn, their weight as long as numbers have
//!   no names, and how often each number is placed, and written (src/used.rt; those counted in a table: `with_table`,
//!   specs/Used.antt). It represents all lists with that weight in which, whatever each number counts for, the sums are equal
//!   (`CountsThese`, specs/Counted.antt). So one relation says both whether a number lacks a name (it counts one) and the
//!   weight of the names (it counts the name's bytes): `counted_known`, proofs/WeighLemmas.antt.
//! - src/reader.rt: `Reader`, over any stores. parts.rt is what it keeps, taking.rt a function for each kind of record,
//!   copying.rt the copies of an element record, place by place: a store draws each (`CellStore::draw_copy`), and a counted
//!   cell only asks what it counts for (`ModalVariables::tally`). `Reader::take_rectangle` is a faster way to the same clauses
//!   for a rectangle without a repetition: its record isn't moved, and its one copy is drawn at once (`accept_rectangle`,
//!   taking.rt; proofs/OnceLemmas.antt, which uses what JudgedDraws.antt says about one copy). So is `Reader::take_named` for
//!   a placement or a text (`accept_named`, src/named.rt); its store copies the name only where it keeps it
//!   (`CellStore::draw_once`). src/series.rt has what a series changes (`TookSeries`; proofs/SeriesLemmas.antt). Where a cell ends, its store gives back memory that only drawing needs (`CellStore::rest`).
//!   specs/Standing.antt: what a record is judged by (`Standing`), `reason`, `took`. Stands.antt: what the definitions say
//!   about a list (`seen`), `Represents`, `refusal`, `records_mean`. Parts.antt connects them with what is kept. The code is
//!   proved against `reason_of` and `Took` (proofs/TakeLemmas.antt, DrawLemmas.antt, JudgedDraws.antt), and these against the
//!   list in ReaderLemmas.antt and FinishLemmas.antt, which don't refer to code.
#![tactic(auto)]

mod accepting;
mod copying;
mod counted;
mod fronts;
pub mod laws;
mod meant;
pub mod name_laws;
mod named;
mod names;
mod parts;
mod reader;
pub mod reader_laws;
mod series;
mod stores;
mod taken;
mod taking;
mod used;

// The crates below, for those above.
pub use accepting::accept_cells;
pub use counted::CountedCell;
pub use meant::{cell_meant, head_weight};
pub use names::{NameTable, Numbering};
pub use oas_drawing::{Drawn, DrawnOnce};
pub use reader::Reader;
pub use series::Room;
pub use stores::{CellStore, Weighed};
pub use taken::Taken;
