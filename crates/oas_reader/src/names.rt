//! Numbers for names.

ghost use Rattle.std.specs.Prelude.{◌≡◌, ◌⊎◌, ◌++◌, drop, length, unwrap_or, Some, None, OnOk, OnErr, IfErr};
ghost use Rattle.std.specs.Option.{option_copied};
ghost use Rattle.std.specs.Ordering.{nat_cmp};
ghost use Rattle.std.specs.BTreeMap.{insert_entry};
ghost use Rattle.oas_num.specs.declared.refusals.Why.TheVariants.{Memory};
ghost use Rattle.oas_reader.specs.Names.{numbering_given, name_of, is_other, no_names, table_reason, with_name};
ghost use Rattle.oas_reader.specs.NamesInOrder.{numbered};

use oas_num::Why;
use std::alloc::Global;
use std::collections::BTreeMap;
use std::marker::Model;

/// Whether name records count their numbers implicitly, or give them (SEMI P39, CELLNAME record, TEXTSTRING record).
#[derive(Clone, Copy, PartialEq, Eq)]
pub enum Numbering {
    /// Ids 3 and 5: the numbers count from 0.
    Implicit,
    /// Ids 4 and 6.
    Explicit,
}

impl Numbering {
    /// The numbering of a name record with this number, or with none.
    fn of(number: Option<u64>) -> Numbering
        ensures { result ≡ numbering_given number }
    {
        match number {
            None => Numbering::Implicit,
            Some(_) => Numbering::Explicit,
        }
    }
}

/// How many strings are in order at most: more than memory holds, and few enough that all can be counted.
const MOST_IN_ORDER: u64 = 1 << 62;

/// The numbers that the name records of one class give to strings, and the numbering of these records.
///
/// Where the numbers 0, 1, 2, .. come in this order, their strings are in a list, each at its number. All other numbers are
/// in a map, which is ordered, so that no choice of numbers makes it slow.
#[derive(Drop)]
pub struct NameTable<S> {
    numbering: Option<Numbering>,
    in_order: Vec<S>,
    /// Each number is at least the length of `in_order`.
    others: BTreeMap<u64, S>,
}

impl<S> Model for NameTable<S> {
    ghost use Rattle.std.specs.Prelude.{◌++◌, length};
    ghost use Rattle.oas_reader.specs.Names.{Table};
    ghost use Rattle.oas_reader.specs.NamesInOrder.{numbered, AreApart};

    ghost Value = { Table S };

    ghost view = { λ a. record { numbering = a.numbering; named = numbered 0 a.in_order.items ++ a.others.entries } };

    ghost invariant = { λ a. AreApart (length a.in_order.items) a.others.entries };
}

impl<S: PartialEq + Drop> NameTable<S> {
    /// A table of no names.
    pub fn new(alloc: Global) -> NameTable<S>
        ensures { result ≡ no_names }
    {
        NameTable {
            numbering: None,
            in_order: Vec::new(alloc),
            others: BTreeMap::new(alloc),
        }
    }

    /// The string of a number, where a name record gave it one.
    pub fn get(&self, number: u64) -> Option<&S>
        ensures { option_copied result ≡ name_of self.now.named number }
    {
        match self.in_order.get(number as usize) {
            Some(string) => Some(string),
            None => self.others.get(&number),
        }
    }

    /// The strings of the numbers 0, 1, 2, .., of those that were named in this order.
    pub fn in_order(&self) -> &[S]
        ensures { numbered 0 result.now ++ drop (length result.now) self.now.named ≡ self.now.named }
    {
        &self.in_order
    }

    /// Takes a name record: a string, and its number where it gives one, or else the next one of its class, from 0 on.
    ///
    /// It is refused with `MixedNumbering` where the class has records of the other numbering, with `NumberTwice` where the
    /// number has another string, and with `Memory` only where neither holds.
    pub fn name(&mut self, string: S, number: Option<u64>) -> Result<(), Why>
        ensures ok { OnOk result ((table_reason S.eq self.old (Some (string, number)) ≡ None) × (self.new ≡ with_name self.old (Some (string, number)))) }
        ensures why { IfErr result (λ why. ((why ≡ Memory) × (table_reason S.eq self.old (Some (string, number)) ≡ None)) ⊎ (table_reason S.eq self.old (Some (string, number)) ≡ Some why)) }
        ensures err { OnErr result (self.new ≡ self.old) }
    {
        if let Some(why) = self.reason(&string, number) {
            return Err(why);
        }
        let numbering = Numbering::of(number);
        let number = self.number_for(number);
        self.put(number, string)?;
        self.numbering = Some(numbering);
        Ok(())
    }

    /// Gives a number a string, in place of the one that it had, if any. If out of memory nothing changes.
    fn put(&mut self, number: u64, string: S) -> Result<(), Why>
        ensures ok { OnOk result (self.new ≡ record self.old { named = insert_entry nat_cmp self.old.named number string }) }
        ensures why { IfErr result (λ why. why ≡ Memory) }
        ensures err { OnErr result (self.new ≡ self.old) }
    {
        let next = self.in_order.len() as u64;
        if number < next {
            self.in_order[number as usize] = string;
            return Ok(());
        }
        if number == next && next < MOST_IN_ORDER && !self.others.contains_key(&number) {
            self.in_order.push(string)?;
            return Ok(());
        }
        self.others.insert(number, string)?;
        Ok(())
    }

    /// The number of a name record: the one that it gives, or else the next.
    fn number_for(&self, number: Option<u64>) -> u64
        ensures { result ≡ unwrap_or number (length self.now.named) }
    {
        number.unwrap_or(self.in_order.len() as u64 + self.others.len() as u64)
    }

    /// Why a name record is refused, if it is.
    fn reason(&self, string: &S, number: Option<u64>) -> Option<Why>
        ensures { result ≡ table_reason S.eq self.now (Some (string.now, number)) }
    {
        if let Some(had) = self.numbering
            && had != Numbering::of(number)
        {
            return Some(Why::MixedNumbering);
        }
        if self.has_other_string(string, self.number_for(number)) {
            return Some(Why::NumberTwice);
        }
        None
    }

    /// Whether the number has another string.
    fn has_other_string(&self, string: &S, number: u64) -> bool
        ensures { result ≡ is_other S.eq (name_of self.now.named number) string.now }
    {
        match self.get(number) {
            None => false,
            Some(had) => *had != *string,
        }
    }
}
