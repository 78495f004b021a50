//! Repetitions as they are read.
ghost use Rattle.std.specs.Prelude.{◌≡◌, ◌<◌, IfOk, IfErr};
ghost use Rattle.oas_num.specs.Reading.{ReadsPiece};
ghost use Rattle.oas_num.specs.Style.{Any};
ghost use Rattle.oas_shape.specs.Offsets.{HasList};
ghost use Rattle.oas_shape.specs.Repetitions.{rep_field_in, RepFieldTook, RepetitionTook, ListedTook, MatrixTook, LatticeTook, LineTook, TwoTook, repetition_by, AreTwo, IsMatrix, IsColumns, IsRows, IsLattice, IsLine, IsListed, grid_of};

use crate::offset_list::OffsetList;
use crate::offsets::Along;
use oas_num::{GDelta, Source, Spelled, Why, read_unsigned, read_unsigned_if};
use std::alloc::{AllocError, Global};

/// The last of the twelve types of repetition.
const LAST_KIND: u64 = 11;

/// A repetition field (SEMI P39, Repetitions).
#[derive(Debug, Drop)]
pub enum RepField {
    /// The repetition that was used last (type 0).
    Again,
    /// One of types 1 to 11.
    New(Repetition),
}

/// The offsets of an element's copies (SEMI P39, Repetitions). A dimension d means d + 2 copies.
#[derive(Debug, Drop)]
pub enum Repetition {
    /// Columns and rows (type 1).
    Matrix {
        x_dim: u64,
        y_dim: u64,
        x_space: u64,
        y_space: u64,
    },
    /// Side by side, at equal spaces (type 2).
    Columns {
        dim: u64,
        space: u64,
    },
    /// One above another, at equal spaces (type 3).
    Rows {
        dim: u64,
        space: u64,
    },
    /// Along two displacements (type 8).
    Lattice {
        n_dim: u64,
        m_dim: u64,
        n: GDelta,
        m: GDelta,
    },
    /// Along one displacement (type 9).
    Line {
        dim: u64,
        by: GDelta,
    },
    /// At listed displacements, each from the copy before (types 4 to 7, 10 and 11).
    Listed(OffsetList),
}

impl Repetition {
    /// A copy, in memory of its own. Only a list allocates.
    pub fn try_clone(&self, alloc: Global) -> Result<Repetition, AllocError>
        ensures equal { IfOk result (λ copy. copy ≡ self.now) }
        ensures refused { IfErr result (λ _. HasList self.now) }
    {
        Ok(match self {
            Repetition::Matrix {
                x_dim,
                y_dim,
                x_space,
                y_space,
            } => Repetition::Matrix {
                x_dim: *x_dim,
                y_dim: *y_dim,
                x_space: *x_space,
                y_space: *y_space,
            },
            Repetition::Columns { dim, space } => Repetition::Columns {
                dim: *dim,
                space: *space,
            },
            Repetition::Rows { dim, space } => Repetition::Rows {
                dim: *dim,
                space: *space,
            },
            Repetition::Lattice { n_dim, m_dim, n, m } => Repetition::Lattice {
                n_dim: *n_dim,
                m_dim: *m_dim,
                n: *n,
                m: *m,
            },
            Repetition::Line { dim, by } => Repetition::Line { dim: *dim, by: *by },
            Repetition::Listed(offsets) => Repetition::Listed(offsets.try_clone(alloc)?),
        })
    }
}

impl RepField {
    /// Reads a type and its fields.
    ///
    /// It fails with `RepetitionKind` for a type above 11; with `CoordinateRange` in types 4 to 7, 10 and 11 as soon as a sum
    /// of displacements, times the grid, is outside -2^62 .. 2^62 (own rule); with what the read of a number fails with; and
    /// with `Memory`. The count reserves no memory.
    pub fn read<S: Source>(alloc: Global, source: &mut S) -> Result<RepField, Why>
        ensures { ReadsPiece (rep_field_in Any) RepFieldTook (S.script source.old) result (S.script source.new) }
    {
        let kind = read_unsigned(source)?;
        if kind > LAST_KIND {
            return Err(Why::RepetitionKind);
        }
        if kind == 0 {
            return Ok(RepField::Again);
        }
        let repetition = read_repetition(alloc, kind, source)?;
        Ok(RepField::New(repetition))
    }
}

/// Reads the fields of types 1 to 11.
fn read_repetition<S: Source>(alloc: Global, kind: u64, source: &mut S) -> Result<Repetition, Why>
    requires known { kind < 12 }
    requires fields { 0 < kind }
    ensures { ReadsPiece (repetition_by kind) (RepetitionTook kind) (S.script source.old) result (S.script source.new) }
{
    match kind {
        1 => read_matrix(source),
        2 => read_columns(source),
        3 => read_rows(source),
        4 => read_listed(alloc, Along::X, false, source),
        5 => read_listed(alloc, Along::X, true, source),
        6 => read_listed(alloc, Along::Y, false, source),
        7 => read_listed(alloc, Along::Y, true, source),
        8 => read_lattice(alloc, source),
        9 => read_line(alloc, source),
        10 => read_listed(alloc, Along::Free, false, source),
        _ => read_listed(alloc, Along::Free, true, source),
    }
}

fn read_matrix<S: Source>(source: &mut S) -> Result<Repetition, Why>
    ensures { ReadsPiece IsMatrix MatrixTook (S.script source.old) result (S.script source.new) }
{
    let (x_dim, y_dim) = read_two(source)?;
    let (x_space, y_space) = read_two(source)?;
    Ok(Repetition::Matrix {
        x_dim,
        y_dim,
        x_space,
        y_space,
    })
}

fn read_columns<S: Source>(source: &mut S) -> Result<Repetition, Why>
    ensures { ReadsPiece IsColumns TwoTook (S.script source.old) result (S.script source.new) }
{
    let (dim, space) = read_two(source)?;
    Ok(Repetition::Columns { dim, space })
}

fn read_rows<S: Source>(source: &mut S) -> Result<Repetition, Why>
    ensures { ReadsPiece IsRows TwoTook (S.script source.old) result (S.script source.new) }
{
    let (dim, space) = read_two(source)?;
    Ok(Repetition::Rows { dim, space })
}

fn read_lattice<S: Source>(alloc: Global, source: &mut S) -> Result<Repetition, Why>
    ensures { ReadsPiece IsLattice LatticeTook (S.script source.old) result (S.script source.new) }
{
    let (n_dim, m_dim) = read_two(source)?;
    let n = GDelta::read(alloc, source)?;
    let m = GDelta::read(alloc, source)?;
    Ok(Repetition::Lattice { n_dim, m_dim, n, m })
}

fn read_line<S: Source>(alloc: Global, source: &mut S) -> Result<Repetition, Why>
    ensures { ReadsPiece IsLine LineTook (S.script source.old) result (S.script source.new) }
{
    let dim = read_unsigned(source)?;
    let by = GDelta::read(alloc, source)?;
    Ok(Repetition::Line { dim, by })
}

/// Reads a dimension, the optional grid, and the displacements.
fn read_listed<S: Source>(
    alloc: Global,
    along: Along,
    has_grid: bool,
    source: &mut S,
) -> Result<Repetition, Why>
    ensures { ReadsPiece (IsListed along has_grid) (ListedTook along has_grid) (S.script source.old) result (S.script source.new) }
{
    let dim = read_unsigned(source)?;
    let grid = read_unsigned_if(has_grid, source)?;
    let offsets = OffsetList::read(alloc, along, grid_or_one(grid), dim, source)?;
    Ok(Repetition::Listed(offsets))
}

/// Without a grid it is 1.
fn grid_or_one(grid: Option<u64>) -> u64
    ensures { result ≡ grid_of grid }
{
    match grid {
        Some(grid) => grid,
        None => 1,
    }
}

/// Reads two numbers.
fn read_two<S: Source>(source: &mut S) -> Result<(u64, u64), Why>
    ensures { ReadsPiece AreTwo TwoTook (S.script source.old) result (S.script source.new) }
{
    let first = read_unsigned(source)?;
    let second = read_unsigned(source)?;
    Ok((first, second))
}
