//! How often the numbers of names are used, and the weight of their names together.

ghost use Rattle.std.specs.Prelude.{◌≡◌, ℕ, ◌+◌, ◌<◌, ◌^◌, List, [], IfSome, OnOk, OnErr};
ghost use Rattle.std.specs.Ordering.{nat_cmp};
ghost use Rattle.oas_elements.specs.Bag.{put_more};
ghost use Rattle.oas_elements.specs.Laws.BagLaws.{total};
ghost use Rattle.oas_reader.specs.Used.{with_table};
ghost use Rattle.oas_reader.specs.Weights.{joined, names_weight};

use crate::names::NameTable;
use oas_elements::count_up;
use oas_num::{Label, Name};
use std::alloc::{AllocError, Global};
use std::collections::BTreeMap;
use std::marker::Model;

/// For numbers below this there may be a table.
const TABLED: usize = 1024;

/// From so many other numbers on there is one, so that few cells need memory for it.
const MANY: usize = 64;

/// How often each number of a name is used; contracts see the list of these with counts. In many cells none is, which takes no memory
/// beside a pointer.
#[derive(Drop)]
pub(crate) struct UsedNumbers {
    alloc: Global,
    counts: Option<Box<Counts>>,
}

impl Model for UsedNumbers {
    ghost use Rattle.std.specs.Prelude.{ℕ, List, []};
    ghost use Rattle.std.specs.Option.{option_map_or};

    ghost Value = { List (ℕ × ℕ) };

    ghost view = { λ a. option_map_or (λ c. c.value) a.counts [] };
}

impl UsedNumbers {
    /// No number is used.
    pub(crate) fn new(alloc: Global) -> UsedNumbers
        ensures { result ≡ [] }
    {
        UsedNumbers {
            alloc,
            counts: None,
        }
    }

    /// Takes the memory in which uses are counted. If out of memory it changes nothing.
    fn open(&mut self) -> Result<(), AllocError>
        ensures { self.new ≡ self.old }
    {
        if self.counts.is_none() {
            self.counts = Some(Box::new(self.alloc, Counts::new(self.alloc))?);
        }
        Ok(())
    }

    /// Uses a number this many more times. If out of memory nothing changes.
    #[inline]
    pub(crate) fn add(&mut self, number: u64, times: u64) -> Result<(), AllocError>
        requires some { 0 < times }
        requires few { total (λ _. 1) self.old + times < 2 ^ 64 }
        ensures ok { OnOk result (self.new ≡ put_more nat_cmp self.old number times) }
        ensures err { OnErr result (self.new ≡ self.old) }
    {
        self.open()?;
        match &mut self.counts {
            Some(counts) => counts.add(number, times),
            None => Err(AllocError),
        }
    }

    /// The bytes of the names of cells that are placed by number.
    pub(crate) fn cells_weight(&self, names: &NameTable<Name>) -> Option<u64>
        ensures { result ≡ names_weight names.now.named self.now }
    {
        match &self.counts {
            Some(counts) => counts.cells_weight(names),
            None => Some(0),
        }
    }

    /// The bytes of the text strings that are written by number.
    pub(crate) fn strings_weight(&self, strings: &NameTable<Label>) -> Option<u64>
        ensures { result ≡ names_weight strings.now.named self.now }
    {
        match &self.counts {
            Some(counts) => counts.strings_weight(strings),
            None => Some(0),
        }
    }
}

/// How often each of some numbers is used.
///
/// Where many are, the lowest ones are counted in a table, where none is searched for. All others are in a map, which is ordered,
/// so that no choice of numbers makes it slow. A number that is in both is used as often as both say.
#[derive(Drop)]
struct Counts {
    table: Vec<u64>,
    others: BTreeMap<u64, u64>,
}

impl Model for Counts {
    ghost use Rattle.std.specs.Prelude.{ℕ, List};
    ghost use Rattle.std.specs.List.Sorted.{IsStrictlySortedBy};
    ghost use Rattle.std.specs.Map.{keys_of};
    ghost use Rattle.std.specs.Ordering.{nat_cmp};
    ghost use Rattle.oas_reader.specs.Used.{with_table};

    ghost Value = { List (ℕ × ℕ) };

    ghost view = { λ a. with_table 0 a.table.items a.others.entries };

    ghost invariant = { λ a. IsStrictlySortedBy nat_cmp (keys_of a.others.entries) };
}

impl Counts {
    /// No number is used.
    fn new(alloc: Global) -> Counts
        ensures { result ≡ [] }
    {
        Counts {
            table: Vec::new(alloc),
            others: BTreeMap::new(alloc),
        }
    }

    /// Uses a number this many more times. If out of memory nothing changes.
    #[inline]
    fn add(&mut self, number: u64, times: u64) -> Result<(), AllocError>
        requires some { 0 < times }
        requires few { total (λ _. 1) self.old + times < 2 ^ 64 }
        ensures ok { OnOk result (self.new ≡ put_more nat_cmp self.old number times) }
        ensures err { OnErr result (self.new ≡ self.old) }
    {
        if let Some(had) = self.table.get_mut(number as usize) {
            *had += times;
            return Ok(());
        }
        self.add_other(number, times)
    }

    /// The same by the map, and with a table from now on where many numbers are used.
    #[inline(never)]
    fn add_other(&mut self, number: u64, times: u64) -> Result<(), AllocError>
        requires { total (λ _. 1) self.old + times < 2 ^ 64 }
        ensures ok { OnOk result (self.new ≡ put_more nat_cmp self.old number times) }
        ensures err { OnErr result (self.new ≡ self.old) }
    {
        self.begin_table()?;
        count_up(&mut self.others, number, times)?;
        Ok(())
    }

    /// Makes the table where many numbers are used. Nothing is counted in it yet.
    fn begin_table(&mut self) -> Result<(), AllocError>
        ensures { self.new ≡ self.old }
    {
        if self.table.len() < TABLED && self.others.len() >= MANY {
            self.table.resize(TABLED, 0)?;
        }
        Ok(())
    }

    /// The same as [`UsedNumbers::cells_weight`].
    fn cells_weight(&self, names: &NameTable<Name>) -> Option<u64>
        ensures { result ≡ names_weight names.now.named self.now }
    {
        let mut weight = tabled_cells_weight(&self.table, names)?;
        for (number, times) in &self.others {
            let bytes = names.get(*number)?.as_bytes().len() as u64;
            weight = weight.saturating_add(times.saturating_mul(bytes));
        }
        Some(weight)
    }

    /// The same as [`UsedNumbers::strings_weight`].
    fn strings_weight(&self, strings: &NameTable<Label>) -> Option<u64>
        ensures { result ≡ names_weight strings.now.named self.now }
    {
        let mut weight = tabled_strings_weight(&self.table, strings)?;
        for (number, times) in &self.others {
            let bytes = strings.get(*number)?.as_bytes().len() as u64;
            weight = weight.saturating_add(times.saturating_mul(bytes));
        }
        Some(weight)
    }
}

/// The bytes of the names of cells whose numbers are in a table.
fn tabled_cells_weight(table: &[u64], names: &NameTable<Name>) -> Option<u64>
    ensures sum { (others : List (ℕ × ℕ)) → joined result (names_weight names.now.named others) ≡ names_weight names.now.named (with_table 0 table.now others) }
    ensures small { IfSome result (λ weight. weight < 2 ^ 64) }
{
    let mut weight = 0u64;
    for (number, times) in table.iter().enumerate() {
        if *times > 0 {
            let bytes = names.get(number as u64)?.as_bytes().len() as u64;
            weight = weight.saturating_add(times.saturating_mul(bytes));
        }
    }
    Some(weight)
}

/// The bytes of the text strings whose numbers are in a table.
fn tabled_strings_weight(table: &[u64], strings: &NameTable<Label>) -> Option<u64>
    ensures sum { (others : List (ℕ × ℕ)) → joined result (names_weight strings.now.named others) ≡ names_weight strings.now.named (with_table 0 table.now others) }
    ensures small { IfSome result (λ weight. weight < 2 ^ 64) }
{
    let mut weight = 0u64;
    for (number, times) in table.iter().enumerate() {
        if *times > 0 {
            let bytes = strings.get(number as u64)?.as_bytes().len() as u64;
            weight = weight.saturating_add(times.saturating_mul(bytes));
        }
    }
    Some(weight)
}
