//! Elements that are being added, as their keys.

ghost use Rattle.std.specs.Prelude.{◌≡◌, ◌+◌, ◌<◌, ◌^◌, ◌++◌, length, List, ℕ, [], false, true, OnOk, OnErr, IfOk, IfSome, IfNone};
ghost use Rattle.std.specs.Ordering.{nat_cmp};
ghost use Rattle.std.specs.Cmp.Lexicographic.{slice_cmp};
ghost use Rattle.oas_elements.specs.declared.element.Element.TheVariants.{Placement, Text, Polygon};
ghost use Rattle.oas_elements.specs.Bag.{put_more};
ghost use Rattle.oas_elements.specs.Laws.BagLaws.{total};
ghost use Rattle.oas_elements.specs.Grid.{fits_grid};
ghost use Rattle.oas_elements.specs.Same.{normal};
ghost use Rattle.oas_elements.specs.Sound.{IsSound};
ghost use Rattle.oas_elements.specs.Weight.{lacks_points};
ghost use Rattle.oas_keys.specs.Keys.{key_of};
ghost use Rattle.oas_runs.specs.Runs.{IsRun};

use oas_elements::{Element, KeptPolygon, Profile, Turns, kept_ring};
use oas_keys::{put_key, put_placement_key, put_polygon_key, put_rectangle_key, put_text_key};
use oas_num::{Label, Name};
use oas_ring::Point;
use oas_run_store::KeyStore;
use oas_runs::{Block, Run};
use std::alloc::{AllocError, Global};
use std::marker::Model;

/// How many bytes are reserved for a key at once. Most keys have fewer.
const KEY: usize = 512;

/// Elements while more are added; contracts see the ascending list of their keys with counts.
#[derive(Drop)]
pub(crate) struct Filling {
    alloc: Global,
    keys: KeyStore,
    /// The key that is being added, so that none needs memory of its own.
    key: Vec<u8>,
}

impl Model for Filling {
    ghost use Rattle.std.specs.Prelude.{List};
    ghost use Rattle.oas_runs.specs.Entries.{Entry};

    ghost Value = { List Entry };

    ghost view = { λ a. a.keys };
}

impl Filling {
    /// No elements, and no memory.
    pub(crate) fn new(alloc: Global) -> Filling
        ensures { result ≡ [] }
    {
        Filling {
            alloc,
            keys: KeyStore::new(alloc),
            key: Vec::new(alloc),
        }
    }

    /// Reserves memory for a key, so that it grows seldom.
    pub(crate) fn reserve(&mut self) -> Result<(), AllocError>
        ensures { self.new ≡ self.old }
    {
        self.key.reserve_exact(KEY)
    }

    /// Begins anew with the keys of a block.
    pub(crate) fn begin(&mut self, block: Block)
        requires run { IsRun (slice_cmp nat_cmp) block }
        requires room { total (λ _. 1) block < 2 ^ 64 }
        ensures { self.new ≡ block }
    {
        self.keys = KeyStore::of_block(self.alloc, block);
    }

    /// Adds an element that the profile may keep in another form, this many times. If out of memory it adds nothing.
    #[inline(always)]
    pub(crate) fn add_geometry(
        &mut self,
        profile: Profile,
        element: &Element,
        times: u64,
    ) -> Result<(), AllocError>
        requires some { 0 < times }
        requires points { lacks_points element.now ≡ false }
        requires inside { fits_grid element.now ≡ true }
        requires room { total (λ _. 1) self.old + times < 2 ^ 64 }
        ensures ok { OnOk result (self.new ≡ put_more (slice_cmp nat_cmp) self.old (key_of (normal profile element.now)) times) }
        ensures sound { OnOk result (IsSound element.now) }
        ensures err { OnErr result (self.new ≡ self.old) }
    {
        element.fits();
        put_kept(profile, element, &mut self.key)?;
        self.keys.add(&self.key, times)?;
        Ok(())
    }

    /// Adds a placement with these fields, which every profile keeps unchanged, this many times. If out of memory it adds
    /// nothing.
    pub(crate) fn add_placement(
        &mut self,
        cell: &Name,
        x: i64,
        y: i64,
        turns: Turns,
        flip: bool,
        times: u64,
    ) -> Result<(), AllocError>
        requires some { 0 < times }
        requires inside { fits_grid (Placement cell.now x y turns flip) ≡ true }
        requires room { total (λ _. 1) self.old + times < 2 ^ 64 }
        ensures ok { OnOk result (self.new ≡ put_more (slice_cmp nat_cmp) self.old (key_of (Placement cell.now x y turns flip)) times) }
        ensures sound { OnOk result (IsSound (Placement cell.now x y turns flip)) }
        ensures err { OnErr result (self.new ≡ self.old) }
    {
        let _name = cell.as_bytes();
        self.key.clear();
        put_placement_key(cell, x, y, turns, flip, &mut self.key)?;
        self.keys.add(&self.key, times)?;
        Ok(())
    }

    /// Adds a text with these fields, which every profile keeps unchanged, this many times. If out of memory it adds nothing.
    pub(crate) fn add_text(
        &mut self,
        string: &Label,
        textlayer: u64,
        texttype: u64,
        x: i64,
        y: i64,
        times: u64,
    ) -> Result<(), AllocError>
        requires some { 0 < times }
        requires inside { fits_grid (Text string.now textlayer texttype x y) ≡ true }
        requires room { total (λ _. 1) self.old + times < 2 ^ 64 }
        ensures ok { OnOk result (self.new ≡ put_more (slice_cmp nat_cmp) self.old (key_of (Text string.now textlayer texttype x y)) times) }
        ensures sound { OnOk result (IsSound (Text string.now textlayer texttype x y)) }
        ensures err { OnErr result (self.new ≡ self.old) }
    {
        let _string = string.as_bytes();
        self.key.clear();
        put_text_key(string, textlayer, texttype, x, y, &mut self.key)?;
        self.keys.add(&self.key, times)?;
        Ok(())
    }

    /// Lets keys that come in order from now on be a run of their own. If out of memory all is still there.
    pub(crate) fn settle(&mut self) -> Result<(), AllocError>
        ensures { self.new ≡ self.old }
    {
        self.keys.settle()
    }

    /// Gives back memory that is idle until the next element is added.
    pub(crate) fn pause(&mut self)
        ensures { self.new ≡ self.old }
    {
        self.key = Vec::new(self.alloc);
        self.keys.rest();
    }

    /// Takes the keys out, ascending in one block, where they are few. Else, or if out of memory, it only gives back memory that
    /// is idle as long as no element is added.
    pub(crate) fn rest(&mut self) -> Option<Block>
        ensures some { IfSome result (λ block. block ≡ self.old) }
        ensures run { IfSome result (λ block. IsRun (slice_cmp nat_cmp) block) }
        ensures none { IfNone result (self.new ≡ self.old) }
    {
        let few = self.keys.take_few();
        if few.is_none() {
            self.pause();
        }
        few
    }

    /// The run of the keys, or out of memory.
    pub(crate) fn close(self) -> Result<Run, AllocError>
        ensures same { IfOk result (λ run. run ≡ self) }
        ensures run { IfOk result (λ run. IsRun (slice_cmp nat_cmp) run) }
    {
        match self.keys.close() {
            Ok(run) => Ok(run),
            Err(_) => Err(AllocError),
        }
    }
}

/// Puts the key of an element in its kept form in place of what was there.
#[inline(always)]
fn put_kept(profile: Profile, element: &Element, key: &mut Vec<u8>) -> Result<(), AllocError>
    requires { IsSound element.now }
    ensures { OnOk result (key.new.items ≡ key_of (normal profile element.now)) }
{
    key.clear();
    match element {
        Element::Polygon {
            layer,
            datatype,
            points,
        } => put_kept_polygon(profile, *layer, *datatype, points.as_slice(), key),
        Element::Placement { .. }
        | Element::Text { .. }
        | Element::Rectangle { .. }
        | Element::Path { .. }
        | Element::Circle { .. } => put_key(element, key),
    }
}

/// Puts the key of the polygon with these points in its kept form after what `key` has. If out of memory, `key` has what it
/// had.
fn put_kept_polygon(
    profile: Profile,
    layer: u64,
    datatype: u64,
    ring: &[Point],
    key: &mut Vec<u8>,
) -> Result<(), AllocError>
    requires some { 0 < length ring.now }
    requires inside { fits_grid (Polygon layer datatype ring.now) ≡ true }
    ensures ok { OnOk result (key.new.items ≡ key.old.items ++ key_of (normal profile (Polygon layer datatype ring.now))) }
    ensures err { OnErr result (key.new.items ≡ key.old.items) }
{
    match kept_ring(profile, ring) {
        KeptPolygon::Box(corners) => put_rectangle_key(
            layer,
            datatype,
            corners.high.x.abs_diff(corners.low.x),
            corners.high.y.abs_diff(corners.low.y),
            corners.low.x,
            corners.low.y,
            key,
        ),
        KeptPolygon::Ring(reading) => put_polygon_key(layer, datatype, ring, reading, key),
    }
}
